// The deck's memory.
ghost use Rattle.std.specs.Prelude.{ℕ, ◌≤◌, [], map, length, slice_index_or};

use arrayvec::ArrayVec;
use code::CLAUSE_LIMIT;
use lines::LINE_LIMIT;
use symbol_table::SymbolTable;

// The lines that were taken, their symbols, and the words of their code. It has no `Model`, since that would hide the bounds of lines and words from callers' proofs.
#[derive(Drop)]
pub struct Deck {
    pub(crate) lines: ArrayVec<ArrayVec<u8, LINE_LIMIT>, CLAUSE_LIMIT>,
    pub(crate) symbols: SymbolTable,
    pub(crate) words: usize,
    ghost few: { length lines.items ≤ 256 },
    ghost short: { (k : ℕ) → length (slice_index_or (map (λ l. l.items) lines.items) k []) ≤ 512 },
    ghost light: { words ≤ 8192 },
}
