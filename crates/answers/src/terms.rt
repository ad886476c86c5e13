// The terms that cells stand for.
ghost use Rattle.std.specs.Prelude.{◌≤◌, length};
ghost use Rattle.heap.specs.Heaps.{Sound, Closed};
ghost use Rattle.heap.specs.Limits.{cell_limit};
ghost use Rattle.answers.specs.Shows.{Digits};
ghost use Rattle.answers.specs.Sounds.{sound-prop};

use heap::Cell;

// Cells that stand for terms, and the names of their symbols.
#[derive(Drop)]
pub(crate) struct Terms<'a, N> {
    pub(crate) names: &'a N,
    pub(crate) cells: &'a [Cell],
    ghost sound: { Sound cells.now } by { sound-prop cells.now },
    ghost closed: { Closed cells.now },
    ghost digits: { Digits cells.now },
    ghost small: { length cells.now ≤ cell_limit },
}
