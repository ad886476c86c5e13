// The table of symbols.
ghost use Rattle.std.specs.Prelude.{ℕ, ◌≤◌, length, slice_index};

use arrayvec::ArrayVec;
use lines::NAME_LIMIT;

// The symbols of a table, at most.
pub const SYMBOL_LIMIT: usize = 256;

// The bytes of their names, 31 for each.
pub(crate) const BYTES: usize = SYMBOL_LIMIT * NAME_LIMIT;

// A name with its arity.
#[derive(Drop)]
pub struct Symbol {
    pub(crate) name: ArrayVec<u8, NAME_LIMIT>,
    pub(crate) arity: u8,
    ghost short: { length name.items ≤ 31 },
    ghost small: { arity ≤ 8 },
}

// Names with their arities, in order of their first occurrence. Each name has 31 bytes of its own. No vector of `Symbol`s: names and arities are lent as one area each, a new table is zeros, and taking symbols away changes one number.
#[derive(Drop)]
pub struct SymbolTable {
    pub(crate) bytes: [u8; BYTES],
    pub(crate) lens: [u8; SYMBOL_LIMIT],
    pub(crate) arities: [u8; SYMBOL_LIMIT],
    pub(crate) len: usize,
    ghost few: { len ≤ 256 },
    ghost short: { (k : ℕ) → slice_index lens k ≤ 31 },
    ghost small: { (k : ℕ) → slice_index arities k ≤ 8 },
}
