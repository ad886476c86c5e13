// The choosers that walk along chains: the straight one and the one by the first argument.
ghost use Rattle.std.specs.Prelude.{if◌then◌else◌};
ghost use Rattle.choosers.specs.Kept.{rows_of};
ghost use Rattle.choosers.specs.Picks.{Finds};
ghost use Rattle.std.proofs.Common.{rules};
ghost use Rattle.std.proofs.lemmas.Grind.{common_steps};

use crate::chains::Chains;
use crate::chooser::Chooser;
use crate::row::Row;
use arrayvec::CapacityError;

// Goes by the goal's key, or else by a key of 0, which clashes with none.
#[derive(Drop)]
pub struct Walker<const BY_KEY: bool> {
    chains: Chains,
}

// Picks the symbol's next row.
pub type Straight = Walker<false>;

// Picks the symbol's next row that does not clash.
pub type FirstArgument = Walker<true>;

impl<const BY_KEY: bool> Walker<BY_KEY> {
    // The symbol's next row above `after` that does not clash with the key that it goes by.
    // Symbol, key and `after` stay three parameters: a walk keeps two and moves the third.
    pub fn next_row(&self, symbol: u8, key: u16, after: usize) -> Option<usize>
        ensures { Finds (rows_of self.now.chains) symbol (if BY_KEY then key else 0) after result }
    {
        self.chains
            .find(symbol, if BY_KEY { key } else { 0 }, after)
    }
}

impl<const BY_KEY: bool> Chooser for Walker<BY_KEY> {
    ghost rows = { λ s. rows_of s.chains };

    ghost few = { Prim.search (rules, common_steps) };

    fn new() -> Walker<BY_KEY> {
        Walker {
            chains: Chains::new(),
        }
    }

    fn empty(&mut self) {
        self.chains.empty();
    }

    fn note(&mut self, row: Row) -> Result<(), CapacityError> {
        self.chains.note(row)
    }

    fn row(&self, m: usize) -> Option<Row> {
        self.chains.row(m)
    }

    fn pick(&self, symbol: u8, key: u16, after: usize) -> Option<usize> {
        self.next_row(symbol, key, after)
    }
}
