// The meaning of every chooser: the list of rows that it was told.
ghost use Rattle.std.specs.Prelude.{◌≡◌, ◌≤◌, List, [], length, is_ok, nat_lt};
ghost use Rattle.choosers.specs.declared.row.Row.{Row};
ghost use Rattle.choosers.specs.Rows.{noted, row_at};
ghost use Rattle.choosers.specs.Picks.{Picks};

use crate::row::Row;
use arrayvec::CapacityError;

// Rows count from 1, so that 0 is before the first.
pub trait Chooser: Sized {
    // the rows told, in their order
    ghost rows: { Self → List Row };

    fn new() -> Self
        ensures { rows result ≡ [] };

    fn empty(&mut self)
        ensures { rows self.new ≡ [] };

    // One row more at the end; refused, with nothing added, where there are 256.
    fn note(&mut self, row: Row) -> Result<(), CapacityError>
        ensures taken { is_ok result ≡ nat_lt (length (rows self.old)) 256 }
        ensures rows { rows self.new ≡ noted (rows self.old) row };

    // Row m, or none outside the list.
    fn row(&self, m: usize) -> Option<Row>
        ensures { result ≡ row_at (rows self.now) m };

    // A row of the symbol above `after`, where each row of the symbol between them clashes with the goal's key; none only where each later row of the symbol clashes.
    fn pick(&self, symbol: u8, key: u16, after: usize) -> Option<usize>
        ensures { Picks (rows self.now) symbol key after result };

    ghost few: { (s : Self) → length (rows s) ≤ 256 };
}
