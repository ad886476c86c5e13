// Taking bindings back.
ghost use Rattle.std.specs.Prelude.{◌≡◌, ◌≤◌, length, take, drop};
ghost use Rattle.matching.specs.Trails.{undone, InTrail};

use crate::trail::Trail;
use heap::Cell;

// Takes back the bindings since the trail was `mark` long.
pub fn undo(cells: &mut [Cell], trail: &mut Trail, mark: usize)
    requires inside { InTrail cells.old (drop mark trail.old) }
    requires marked { mark ≤ length trail.old }
    ensures cells { cells.new ≡ undone (drop mark trail.old) cells.old }
    ensures trail { trail.new ≡ take mark trail.old }
    ensures len { length trail.new ≡ mark }
{
    while mark < trail.len() {
        let bound = trail.pop();
        cells[bound.at as usize] = bound.was;
    }
}
