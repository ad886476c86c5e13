// The words of a query, with the numbers of its symbols and variables.
ghost use Rattle.std.specs.Prelude.{◌≡◌};

#[derive(Clone, Copy)]
pub enum Piece {
    Constant(u16),
    Variable(u16),
    // a symbol and its arity
    Structure(u16, u16),
    Goal(u16, u16),
}

// A term that waits for the structure or goal that it is an argument of.
#[derive(Clone, Copy)]
pub enum Entry {
    Constant(u16),
    Variable(u16),
    Cell(u16),
}

// What stands where there is no entry yet; a derive would need a variant with no value.
impl Default for Entry {
    ghost use Rattle.posing.specs.declared.pieces.Entry.TheVariants.{Constant};

    ghost is_default = { λ e. e ≡ Constant 0 };

    fn default() -> Entry {
        Entry::Constant(0)
    }
}
