// The place after each term.
ghost use Rattle.std.specs.Prelude.{◌≡◌, [], length};
ghost use Rattle.compiler.specs.Terms.{hop};
ghost use Rattle.compiler.specs.Places.{Run, Ends};
ghost use Rattle.compiler.specs.Reading.{Whole};
ghost use Rattle.compiler.specs.Lines.{plan};
ghost use Rattle.compiler.specs.Tables.{table, items_of, ends_of, slots_of};
ghost use Rattle.symbol_table.specs.Tables.{signature};

use crate::flat::Place;
use symbol_table::SymbolTable;

// The place after the `n` terms from `from` on.
pub(crate) fn skip(places: &[Place], from: usize, n: u8) -> usize
    requires { Run (table (ends_of places.now)) (length places.now) n from (hop (table (ends_of places.now)) n from) }
    ensures { result ≡ hop (table (ends_of places.now)) n from }
{
    let mut at = from;
    for _ in 0..n {
        at = places[at].after;
    }
    at
}

// Finds the place after each term, from the last one back: by index, since each turn writes one place and reads those after it.
pub(crate) fn find_places(symbols: &SymbolTable, places: &mut [Place])
    requires { Whole (signature symbols.now) (items_of places.old) }
    ensures ends { Ends (plan (signature symbols.now) (items_of places.new) (ends_of places.new) []) 0 }
    ensures items { items_of places.new ≡ items_of places.old }
    ensures slots { slots_of places.new ≡ slots_of places.old }
{
    for i in (0..places.len()).rev() {
        let width = places[i].item.width(symbols);
        places[i].after = skip(places, i + 1, width);
    }
}
