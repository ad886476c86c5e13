// Symbols, one by one.
ghost use Rattle.std.specs.Prelude.{◌≡◌, ◌≤◌, [], length};
ghost use Rattle.symbol_table.specs.Tables.{symbol_of};

use crate::table::Symbol;
use arrayvec::ArrayVec;

impl Symbol {
    pub fn new(name: &[u8], arity: u8) -> Symbol
        requires short { length name.now ≤ 31 }
        requires small { arity ≤ 8 }
        ensures { symbol_of result ≡ record { name = name.now; arity = arity } }
    {
        Symbol {
            name: ArrayVec::try_from(name).unwrap(),
            arity,
        }
    }

    pub fn name(&self) -> &[u8]
        ensures value { result.now ≡ (symbol_of self.now).name }
        ensures short { length result.now ≤ 31 }
    {
        self.name.as_slice()
    }

    pub fn arity(&self) -> u8
        ensures value { result ≡ (symbol_of self.now).arity }
        ensures small { result ≤ 8 }
    {
        self.arity
    }
}

// What stands for a symbol where there is none. No derive: the law is of the symbol that it stands for, and not of its fields.
impl Default for Symbol {
    ghost is_default = { λ s. symbol_of s ≡ record { name = []; arity = 0 } };

    fn default() -> Symbol {
        Symbol::new(&[], 0)
    }
}
