// Rows in fixed memory, in a chain for each symbol.
ghost use Rattle.std.specs.Prelude.{◌≤◌, take};
ghost use Rattle.choosers.specs.Chained.{Chained};

use crate::row::Row;

// The most rows: as many as a deck has clauses, of which this crate knows nothing.
pub(crate) const ROW_LIMIT: usize = 256;

// The symbols of 8 bits.
pub(crate) const SYMBOL_LIMIT: usize = 256;

// A row, and the next one of its symbol; rows count from 0 here.
#[derive(Clone, Copy, Default)]
pub struct Link {
    pub(crate) row: Row,
    pub(crate) next: Option<u8>,
}

// The first and the last row of a symbol.
#[derive(Clone, Copy)]
pub struct Ends {
    pub(crate) first: u8,
    pub(crate) last: u8,
}

// No Model: a `Chooser` has its rows as a ghost.
#[derive(Drop)]
pub struct Chains {
    // those told are the first `len`; an ArrayVec writes over each where it is cleared
    pub(crate) links: [Link; ROW_LIMIT],
    pub(crate) len: usize,
    // of each symbol that has a row
    pub(crate) ends: [Option<Ends>; SYMBOL_LIMIT],
    ghost few: { len ≤ 256 },
    ghost chained: { ∥ Chained (take len links) ends ∥₁ },
}
