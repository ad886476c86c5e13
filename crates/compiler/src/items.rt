// The items of a clause: the fields of its arguments, in prefix order.
ghost use Rattle.std.specs.Prelude.{◌≡◌};
ghost use Rattle.compiler.specs.Places.{width, single};
ghost use Rattle.symbol_table.specs.Tables.{signature};

use code::WORD_LIMIT;
use symbol_table::SymbolTable;

// The items of a clause, at most: each gives a word or more.
pub(crate) const ITEM_LIMIT: usize = WORD_LIMIT;

// A constant's symbol, a structure's symbol, whose terms follow it, or a variable's number.
#[derive(Clone, Copy)]
pub enum Item {
    Atom(u16),
    Structure(u16),
    Variable(u8),
}

impl Item {
    // How many terms follow as its own.
    pub(crate) fn width(self, symbols: &SymbolTable) -> u8
        ensures { result ≡ width (signature symbols.now) self }
    {
        match self {
            Item::Structure(f) => symbols.arity(f),
            _ => 0,
        }
    }

    // How many structures it begins.
    pub(crate) fn structures(self) -> u8
        ensures { result ≡ single self }
    {
        match self {
            Item::Structure(_) => 1,
            _ => 0,
        }
    }
}

// What an unused place of a buffer holds; a derive would need a variant with no value.
impl Default for Item {
    fn default() -> Item {
        Item::Atom(0)
    }
}
