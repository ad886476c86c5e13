// The names of symbols.
ghost use Rattle.std.specs.Prelude.{◌≡◌, ℕ, ◌<◌, List, length, slice_index};

// Gives the name of each symbol, byte by byte: where an image has it, its bytes stand four to a word, and no slice of them can be lent.
pub trait Names {
    ghost naming: { Self → ℕ → List ℕ };

    fn name_len(&self, symbol: u16) -> usize
        ensures { result ≡ length (naming self.now symbol) };

    fn name_byte(&self, symbol: u16, i: usize) -> u8
        requires { i < length (naming self.now symbol) }
        ensures { result ≡ slice_index (naming self.now symbol) i };
}
