// What takes the bytes of a line.
ghost use Rattle.std.specs.Prelude.{◌≡◌, ℕ, ◌+◌, List, [], ◌∷◌, length, is_ok};
ghost use Rattle.answers.specs.Takes.{Puts};

use arrayvec::CapacityError;

// Takes bytes, one by one, as long as there is room. The buffer is lent to each call.
pub trait Sink {
    // how many bytes more are taken
    ghost room: { Self → List ℕ → ℕ };

    // these bytes lead from the first state and buffer to the second
    ghost holds: { Self → List ℕ → Self → List ℕ → List ℕ → Type 0 };

    fn put(&mut self, out: &mut [u8], b: u8) -> Result<(), CapacityError>
        ensures { Puts Self room holds (is_ok result) self.old out.old self.new out.new (b ∷ []) };

    ghost none: { (s : Self) (o : List ℕ) → holds s o s o [] };

    ghost less: { (s t : Self) (o q bs : List ℕ) → holds s o t q bs → room t q + length bs ≡ room s o };
}
