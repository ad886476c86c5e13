// Symbols by their numbers, and numbers by their symbols.
ghost use Rattle.std.specs.Prelude.{◌≡◌, ◌<◌, ◌≤◌, [], ◌∷◌, ◌++◌, length, take, OnOk, OnErr};
ghost use Rattle.symbol_table.specs.Symbols.{name_at, arity_at, arities_of};
ghost use Rattle.symbol_table.specs.Numbers.{is_symbol, found, note_symbol};
ghost use Rattle.symbol_table.specs.Tables.{symbol_in, signature};

use crate::names::write_name;
use crate::table::{BYTES, SYMBOL_LIMIT, SymbolTable};
use arrayvec::CapacityError;
use lines::NAME_LIMIT;

impl SymbolTable {
    pub fn new() -> SymbolTable
        ensures { signature result ≡ [] }
    {
        SymbolTable {
            bytes: [0; BYTES],
            lens: [0; SYMBOL_LIMIT],
            arities: [0; SYMBOL_LIMIT],
            len: 0,
        }
    }

    // How many symbols there are.
    #[tactic(auto, using(crate::proofs::SymbolLaws::signature_long))]
    pub fn len(&self) -> usize
        ensures value { result ≡ length (signature self.now) }
        ensures few { result ≤ 256 }
    {
        self.len
    }

    // The arity of the symbol with this number, or 0 where there is none: it cannot fail.
    pub fn arity(&self, symbol: u16) -> u8
        ensures value { result ≡ arity_at (signature self.now) symbol }
        ensures small { result ≤ 8 }
    {
        let k = symbol as usize;
        if k < self.len { self.arities[k] } else { 0 }
    }

    // The arities in the order of the numbers.
    pub fn arities(&self) -> &[u8]
        ensures { result.now ≡ arities_of (signature self.now) }
    {
        &self.arities[0..self.len]
    }

    // The name of the symbol with this number, or no bytes where there is none: it cannot fail.
    pub fn name(&self, symbol: u16) -> &[u8]
        ensures { result.now ≡ name_at (signature self.now) symbol }
    {
        let k = symbol as usize;
        if k >= self.len {
            return &[];
        }
        let from = NAME_LIMIT * k;
        let end = from + self.lens[k] as usize;
        &self.bytes[from..end]
    }

    // The bytes of all names, each from 31 times its number on.
    pub fn bytes(&self) -> &[u8]
        ensures { result.now ≡ self.now.bytes }
    {
        &self.bytes[..]
    }

    // Whether the symbol with number `k` has this name and arity.
    #[tactic(auto, using(crate::proofs::NumberLaws::same_slices))]
    fn is_at(&self, k: usize, name: &[u8], arity: u8) -> bool
        requires { k < self.now.len }
        ensures { result ≡ is_symbol (symbol_in self.now k) name.now arity }
    {
        let from = NAME_LIMIT * k;
        let end = from + self.lens[k] as usize;
        let held = &self.bytes[from..end];
        held == name && self.arities[k] == arity
    }

    // The number of the symbol with this name and arity. From the front, since no map has fixed memory, and by numbers, since each name has 31 bytes of its own.
    pub fn find(&self, name: &[u8], arity: u8) -> Option<u16>
        ensures { result ≡ found (signature self.now) name.now arity }
    {
        for k in 0..self.len {
            if self.is_at(k, name, arity) {
                return Some(k as u16);
            }
        }
        None
    }

    // Adds a symbol at the end. By name and arity, as all that asks for symbols: callers have a part of a line, of which a `Symbol` is a copy.
    pub fn add(&mut self, name: &[u8], arity: u8)
        requires few { length (signature self.old) < 256 }
        requires short { length name.now ≤ 31 }
        requires small { arity ≤ 8 }
        ensures { signature self.new ≡ signature self.old ++ record { name = name.entry.now; arity = arity } ∷ [] }
    {
        let k = self.len;
        write_name(&mut self.bytes, NAME_LIMIT * k, name);
        self.lens[k] = name.len() as u8;
        self.arities[k] = arity;
        self.len = k + 1;
    }

    // Adds a symbol that is not there yet; where it finds no room, nothing is added.
    pub fn note(&mut self, name: &[u8], arity: u8) -> Result<(), CapacityError>
        requires short { length name.now ≤ 31 }
        requires small { arity ≤ 8 }
        ensures noted { OnOk result (signature self.new ≡ note_symbol (signature self.old) name.now arity) }
        ensures full { OnErr result ((256 < length (note_symbol (signature self.old) name.now arity)) × (signature self.new ≡ signature self.old)) }
    {
        if self.find(name, arity).is_some() {
            return Ok(());
        }
        if self.len == SYMBOL_LIMIT {
            return Err(CapacityError::new(()));
        }
        self.add(name, arity);
        Ok(())
    }

    // Takes the symbols from number `len` on away, if there are any.
    pub fn truncate(&mut self, len: usize)
        ensures { signature self.new ≡ take len (signature self.old) }
    {
        let len = len.min(self.len);
        self.len = len;
    }
}
