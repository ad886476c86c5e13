// What holds of every chooser: a walk over its picks comes to each row that may serve.
ghost use Rattle.std.specs.Prelude.{◌≡◌, true, MatchBool};
ghost use Rattle.choosers.specs.Picks.{Has};
ghost use Rattle.choosers.specs.Rows.{Clash, row_of};

use crate::chooser::Chooser;
use crate::row::Row;
use crate::walker::{FirstArgument, Straight};

// Whether row m is picked for the goal, where each pick goes on from the one before: only a row of the symbol is, and each that does not clash.
pub fn offers<C: Chooser>(chooser: &C, symbol: u8, key: u16, m: usize) -> bool
    ensures { MatchBool result (Has (C.Chooser.rows chooser.now) symbol m) (Has (C.Chooser.rows chooser.now) symbol m → Clash key (row_of (C.Chooser.rows chooser.now) m).key) }
{
    let mut after = 0;
    while let Some(n) = chooser.pick(symbol, key, after) {
        if n == m {
            return true;
        }
        after = n;
    }
    false
}

// Either chooser offers the one row that it was told.
pub fn both_offer(row: Row) -> bool
    ensures { result ≡ true }
{
    let mut straight = Straight::new();
    let mut first_argument = FirstArgument::new();
    straight.note(row).is_ok()
        && first_argument.note(row).is_ok()
        && offers(&straight, row.symbol, row.key, 1)
        && offers(&first_argument, row.symbol, row.key, 1)
}
