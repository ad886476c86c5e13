// Taking lines into the deck.
ghost use Rattle.std.specs.Prelude.{◌≡◌, [], OnOk, OnErr};
ghost use Rattle.symbol_table.specs.Noting.{Begins};
ghost use Rattle.deck.specs.Decks.{adding, reply, after};
ghost use Rattle.deck.specs.Held.{contents};

use crate::state::Deck;
use arrayvec::ArrayVec;
use code::CODE_LIMIT;
use lines::{Area, CallFault, read_clause};
use symbol_table::{SymbolTable, note_symbols};

impl Deck {
    pub fn new() -> Deck
        ensures { contents result ≡ record { lines = []; symbols = []; words = 0 } }
    {
        Deck {
            lines: ArrayVec::new(),
            symbols: SymbolTable::new(),
            words: 0,
        }
    }

    // Takes a clause line, or refuses it and leaves the deck as it was.
    pub fn add(&mut self, line: &[u8]) -> Result<(), CallFault>
        ensures value { result ≡ reply (adding (contents self.old) line.now) tt }
        ensures after { contents self.new ≡ after (contents self.old) (adding (contents self.old) line.now) }
    {
        let symbols = self.symbols.len();
        let added = self.take_line(line);
        if added.is_err() {
            self.symbols.truncate(symbols);
        }
        added
    }

    // The same, but of a line that is refused some symbols may stay.
    fn take_line(&mut self, line: &[u8]) -> Result<(), CallFault>
        ensures value { result ≡ reply (adding (contents self.old) line.now) tt }
        ensures taken { OnOk result (contents self.new ≡ after (contents self.old) (adding (contents self.old) line.now)) }
        ensures lines { OnErr result ((contents self.new).lines ≡ (contents self.old).lines) }
        ensures symbols { OnErr result (Begins (contents self.old).symbols (contents self.new).symbols) }
        ensures words { OnErr result ((contents self.new).words ≡ (contents self.old).words) }
    {
        let clause = read_clause(line)?;
        if self.lines.is_full() {
            return Err(Area::Clauses.into());
        }
        note_symbols(&mut self.symbols, clause.body).map_err(|_| Area::Symbols)?;
        let words = self.words + (clause.weight + 2);
        if words > CODE_LIMIT {
            return Err(Area::CodeWords.into());
        }
        self.lines.push(ArrayVec::try_from(line).unwrap());
        self.words = words;
        Ok(())
    }
}
