// The store: areas of fixed size, fit for matching. No call allocates.
ghost use Rattle.std.specs.Prelude.{◌≡◌, ◌≤◌, length, take};
ghost use Rattle.heap.specs.Limits.{cell_limit};
ghost use Rattle.cells.specs.States.{Fine};

use heap::{CELL_LIMIT, Cell};
use matching::{Trail, Unifier};

// The first pair, and one for each argument of a structure.
pub(crate) const PAIR_LIMIT: usize = CELL_LIMIT + 1;

// No Model: two things are said of it, its cells and its bindings.
#[derive(Drop)]
pub struct Store {
    // the cells in use are the first `top`: a cell that is given up is not written over
    pub(crate) cells: [Cell; CELL_LIMIT],
    pub(crate) top: u16,
    pub(crate) trail: Trail,
    pub(crate) unifier: Unifier<PAIR_LIMIT>,
    ghost long: { length cells ≡ cell_limit },
    ghost few: { top ≤ cell_limit },
    ghost fine: { ∥ Fine (take top cells) (length trail) ∥₁ },
}
