// Matching.
ghost use Rattle.std.specs.Prelude.{◌≡◌, ◌+◌, ◌<◌, ◌≤◌, [], length, MatchBool, is_ok};
ghost use Rattle.heap.specs.Limits.{cell_limit};
ghost use Rattle.heap.specs.Heaps.{Sound, Closed, total, plain, arity};
ghost use Rattle.heap.specs.Solutions.{Apart};
ghost use Rattle.matching.specs.Trails.{Kept};
ghost use Rattle.matching.specs.Unifies.{Unified};

use crate::pairs::Pair;
use crate::trail::Trail;
use arrayvec::ArrayVec;
use heap::{Cell, Search, root};

// Two terms that cannot be made one.
#[derive(Clone, Copy, Debug, PartialEq, Eq)]
pub struct Unlike;

// What matching works with: a search, and the pairs that have yet to agree, for which there is room `PAIRS`.
#[derive(Drop)]
pub struct Unifier<const PAIRS: usize> {
    pub(crate) search: Search,
    pub(crate) pairs: ArrayVec<Pair, PAIRS>,
}

impl<const PAIRS: usize> Unifier<PAIRS> {
    pub fn new() -> Self
        ensures { result.pairs.items ≡ [] }
    {
        Unifier {
            search: Search::new(),
            pairs: ArrayVec::new(),
        }
    }

    // Makes the terms at `a` and `b` one, or says that they cannot be.
    pub fn unify(
        &mut self,
        cells: &mut [Cell],
        trail: &mut Trail,
        a: u16,
        b: u16,
    ) -> Result<(), Unlike>
        requires sound { Sound cells.old }
        requires closed { Closed cells.old }
        requires small { length cells.old ≤ cell_limit }
        requires a_within { a < length cells.old }
        requires b_within { b < length cells.old }
        requires room { length trail.old + total plain cells.old ≤ cell_limit }
        requires pairs_room { total arity cells.old < PAIRS }
        ensures sound { Sound cells.new }
        ensures closed { Closed cells.new }
        ensures kept { Kept cells.old trail.old cells.new trail.new }
        ensures result { MatchBool (is_ok result) (Unified cells.old cells.new a b) (Apart cells.old a b) }
    {
        self.pairs.clear();
        self.pairs.push(Pair { left: a, right: b });
        while let Some(pair) = self.pairs.pop() {
            let i = root(cells, pair.left);
            let j = root(cells, pair.right);
            if i != j {
                self.join(cells, trail, i, j)?;
            }
        }
        Ok(())
    }
}
