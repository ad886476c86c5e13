// One turn of matching, at two roots.
ghost use Rattle.std.specs.Prelude.{◌≡◌, ◌+◌, ◌<◌, ◌≤◌, length, MatchBool, ◌≢◌, is_ok};
ghost use Rattle.heap.specs.Limits.{cell_limit};
ghost use Rattle.heap.specs.Heaps.{Sound, Closed, Rooted, cell, total, plain, arity};
ghost use Rattle.heap.specs.Solutions.{Apart};
ghost use Rattle.matching.specs.Trails.{Kept};
ghost use Rattle.matching.specs.Unifies.{Joined};

use crate::binding::attach;
use crate::pairs::push_rows;
use crate::trail::Trail;
use crate::unifier::{Unifier, Unlike};
use heap::Cell;

impl<const PAIRS: usize> Unifier<PAIRS> {
    // Takes the demand that the roots `i` and `j` agree into the heap, and into more pairs.
    // Two constants, and an unbound cell at a constant or at an unbound cell, want no search.
    // Of two structures the first becomes a reference to the second, so that they meet no second time.
    pub(crate) fn join(
        &mut self,
        cells: &mut [Cell],
        trail: &mut Trail,
        i: u16,
        j: u16,
    ) -> Result<(), Unlike>
        requires sound { Sound cells.old }
        requires closed { Closed cells.old }
        requires small { length cells.old ≤ cell_limit }
        requires i_within { i < length cells.old }
        requires j_within { j < length cells.old }
        requires i_root { Rooted (cell cells.old i) }
        requires j_root { Rooted (cell cells.old j) }
        requires other { i ≢ j }
        requires room { length trail.old + total plain cells.old ≤ cell_limit }
        requires pairs_room { total arity cells.old + length self.old.pairs.items ≤ PAIRS }
        ensures kept { Kept cells.old trail.old cells.new trail.new }
        ensures result { MatchBool (is_ok result) (Joined cells.old self.old.pairs.items i j cells.new self.new.pairs.items) ((cells.new ≡ cells.old) × Apart cells.old i j) }
    {
        match (cells[i as usize], cells[j as usize]) {
            // a root is no reference
            (Cell::Ref(_), _) | (_, Cell::Ref(_)) => unreachable!(),
            (Cell::Unbound, Cell::Unbound) if i < j => {
                attach(cells, trail, &mut self.search, j, i, 0)
            }
            (Cell::Unbound, Cell::Unbound) => { attach(cells, trail, &mut self.search, i, j, 0) }
            (Cell::Unbound, Cell::Node { arity, .. }) => {
                attach(cells, trail, &mut self.search, i, j, arity)
            }
            (Cell::Node { arity, .. }, Cell::Unbound) => {
                attach(cells, trail, &mut self.search, j, i, arity)
            }
            (
                Cell::Node {
                    symbol: f,
                    arity: n,
                    first: p,
                },
                Cell::Node {
                    symbol: g,
                    arity: m,
                    first: q,
                },
            ) => {
                if f != g || n != m {
                    return Err(Unlike);
                }
                if n == 0 {
                    return Ok(());
                }
                attach(cells, trail, &mut self.search, i, j, n)?;
                push_rows(&mut self.pairs, p, q, n);
                Ok(())
            }
        }
    }
}
