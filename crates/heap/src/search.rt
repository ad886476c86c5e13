// Whether one cell is reached from another: a search that marks each cell that it meets.
ghost use Rattle.std.specs.Prelude.{◌≡◌, ◌+◌, ◌<◌, ◌≤◌, false, [], length, replicate, Decides, sum_by};
ghost use Rattle.heap.specs.Limits.{cell_limit};
ghost use Rattle.heap.specs.Heaps.{Closed, Below, Reach};
ghost use Rattle.heap.specs.Marks.{blank, Visited};

use crate::cell::{CELL_LIMIT, Cell};
use crate::marks::Marks;
use arrayvec::ArrayVec;
use std::ops::Range;

// The cells that the cell at `at` names. What is asked of cells is asked by each function that reads them: they are lent, and bound in between.
fn below(cells: &[Cell], at: u16) -> Range<u16>
    requires closed { Closed cells.now }
    requires small { length cells.now ≤ cell_limit }
    requires within { at < length cells.now }
    ensures { Below cells.now at result.start result.end }
{
    match cells[at as usize] {
        Cell::Unbound => at..at,
        Cell::Ref(next) => next..next + 1,
        Cell::Node { arity, first, .. } => first..first + arity,
    }
}

// The marks, and the cells that the search has yet to look into.
#[derive(Drop)]
pub struct Search {
    pub(crate) marks: Marks,
    pub(crate) visits: ArrayVec<u16, CELL_LIMIT>,
}

impl Search {
    pub fn new() -> Search
        ensures marks { result.marks ≡ replicate cell_limit false }
        ensures visits { result.visits.items ≡ [] }
    {
        Search {
            marks: Marks::new(),
            visits: ArrayVec::new(),
        }
    }

    // Whether there is a way down from `start` to `goal`.
    pub fn reaches(&mut self, cells: &[Cell], start: u16, goal: u16) -> bool
        requires closed { Closed cells.now }
        requires small { length cells.now ≤ cell_limit }
        requires within { start < length cells.now }
        ensures { Decides result (Reach cells.now start goal) }
    {
        self.marks.clear();
        self.visits.clear();
        self.visit(start..start + 1);
        while let Some(at) = self.visits.pop() {
            if at == goal {
                return true;
            }
            self.visit(below(cells, at));
        }
        false
    }

    // Marks each of `range` that has no mark, and puts it on the visits. Room for as many as there are cells without a mark is enough.
    fn visit(&mut self, range: Range<u16>)
        requires order { range.start ≤ range.end }
        requires within { range.start < range.end → range.end ≤ cell_limit }
        requires marks { length self.old.marks ≡ cell_limit }
        requires room { sum_by blank self.old.marks + length self.old.visits.items ≤ cell_limit }
        ensures { Visited self.old.marks self.new.marks self.old.visits.items self.new.visits.items range.start range.end }
    {
        for k in range.start..range.end {
            if !self.marks.has(k) {
                self.marks.put(k);
                self.visits.push(k);
            }
        }
    }
}
