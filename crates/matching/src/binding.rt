// Binding a cell to another.
// Cells and trail stay two parameters here: a struct that lends both says no more, and each clause would name them through it.
ghost use Rattle.std.specs.Prelude.{◌≡◌, ◌+◌, ◌<◌, ◌≤◌, length, MatchBool, ◌≢◌, is_ok, slice_set};
ghost use Rattle.heap.specs.Limits.{cell_limit};
ghost use Rattle.heap.specs.Heaps.{Closed, Reach, Rooted, cell, total, plain, arity};
ghost use Rattle.heap.specs.declared.cell.Cell.TheVariants.{Ref};
ghost use Rattle.matching.specs.Trails.{Kept};

use crate::trail::{Bound, Trail};
use crate::unifier::Unlike;
use heap::{Cell, Search};

// Makes `i` a reference to `j`, and notes on the trail what it was.
pub fn bind(cells: &mut [Cell], trail: &mut Trail, i: u16, j: u16)
    requires within { i < length cells.old }
    requires root { Rooted (cell cells.old i) }
    requires room { length trail.old + total plain cells.old ≤ cell_limit }
    ensures after { cells.new ≡ slice_set cells.old i (Ref j) }
    ensures kept { Kept cells.old trail.old cells.new trail.new }
{
    trail.push(Bound {
        at: i,
        was: cells[i as usize],
    });
    cells[i as usize] = Cell::Ref(j);
}

// Makes `i` a reference to `j`, which has `n` arguments, unless `i` can be reached from `j`.
pub(crate) fn attach(
    cells: &mut [Cell],
    trail: &mut Trail,
    search: &mut Search,
    i: u16,
    j: u16,
    n: u16,
) -> Result<(), Unlike>
    requires closed { Closed cells.old }
    requires small { length cells.old ≤ cell_limit }
    requires i_within { i < length cells.old }
    requires j_within { j < length cells.old }
    requires i_root { Rooted (cell cells.old i) }
    requires j_root { Rooted (cell cells.old j) }
    requires other { i ≢ j }
    requires arguments { arity (cell cells.old j) ≡ n }
    requires room { length trail.old + total plain cells.old ≤ cell_limit }
    ensures kept { Kept cells.old trail.old cells.new trail.new }
    ensures result { MatchBool (is_ok result) ((cells.new ≡ slice_set cells.old i (Ref j)) × (Reach cells.old j i → ⊥)) ((cells.new ≡ cells.old) × Reach cells.old j i) }
{
    if n > 0 && search.reaches(cells, j, i) {
        return Err(Unlike);
    }
    bind(cells, trail, i, j);
    Ok(())
}
