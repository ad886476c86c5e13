// Following references.
ghost use Rattle.std.specs.Prelude.{◌<◌, length};
ghost use Rattle.heap.specs.Heaps.{Sound, Closed};
ghost use Rattle.heap.specs.Solutions.{Root};

use crate::cell::Cell;

// Where the references from `i` lead.
pub fn root(cells: &[Cell], i: u16) -> u16
    requires sound { Sound cells.now }
    requires closed { Closed cells.now }
    requires within { i < length cells.now }
    ensures { Root cells.now i result }
{
    let mut at = i;
    while let Cell::Ref(next) = cells[at as usize] {
        at = next;
    }
    at
}
