// Chains: noting a row, and walking along the rows of one symbol.
ghost use Rattle.std.specs.Prelude.{◌≡◌, [], length, take, MatchBool, is_ok, nat_lt};
ghost use Rattle.choosers.specs.Chained.{Starts};
ghost use Rattle.choosers.specs.Kept.{rows_of};
ghost use Rattle.choosers.specs.Picks.{Finds};
ghost use Rattle.choosers.specs.Rows.{Clash, noted, row_at};

use crate::chains::{Chains, Ends, Link, ROW_LIMIT, SYMBOL_LIMIT};
use crate::row::Row;
use arrayvec::CapacityError;

// Whether both keys are above 0 and differ.
fn clashes(key: u16, other: u16) -> bool
    ensures { MatchBool result (Clash key other) (Clash key other → ⊥) }
{
    key != 0 && other != 0 && key != other
}

impl Chains {
    pub(crate) fn new() -> Chains
        ensures { rows_of result ≡ [] }
    {
        Chains {
            links: [Link::default(); ROW_LIMIT],
            len: 0,
            ends: [None; SYMBOL_LIMIT],
        }
    }

    pub(crate) fn empty(&mut self)
        ensures { rows_of self.new ≡ [] }
    {
        self.ends = [None; SYMBOL_LIMIT];
        self.len = 0;
    }

    pub(crate) fn note(&mut self, row: Row) -> Result<(), CapacityError>
        ensures taken { is_ok result ≡ nat_lt (length (rows_of self.old)) 256 }
        ensures rows { rows_of self.new ≡ noted (rows_of self.old) row }
    {
        if self.len >= ROW_LIMIT {
            return Err(CapacityError::new(()));
        }
        let at = self.len as u8;
        let s = row.symbol as usize;
        let mut first = at;
        if let Some(ends) = self.ends[s] {
            self.links[ends.last as usize].next = Some(at);
            first = ends.first;
        }
        self.ends[s] = Some(Ends { first, last: at });
        self.links[self.len] = Link { row, next: None };
        self.len += 1;
        Ok(())
    }

    pub(crate) fn row(&self, m: usize) -> Option<Row>
        ensures { result ≡ row_at (rows_of self.now) m }
    {
        if m == 0 || m > self.len {
            return None;
        }
        Some(self.links[m - 1].row)
    }

    // The symbol's first row above `after` that does not clash with the key.
    pub(crate) fn find(&self, symbol: u8, key: u16, after: usize) -> Option<usize>
        ensures { Finds (rows_of self.now) symbol key after result }
    {
        let mut at = self.start(symbol, after);
        while let Some(n) = at {
            let i = n as usize;
            let link = self.links[i];
            if i >= after && !clashes(key, link.row.key) {
                return Some(i + 1);
            }
            at = link.next;
        }
        None
    }

    // Where the walk to the symbol's rows above `after` starts: at the row next to `after` in its chain where `after` has the symbol, else at the symbol's first.
    fn start(&self, symbol: u8, after: usize) -> Option<u8>
        ensures { Starts (take self.now.len self.now.links) symbol after result }
    {
        if after > 0 && after <= self.len && self.links[after - 1].row.symbol == symbol {
            return self.links[after - 1].next;
        }
        Some(self.ends[symbol as usize]?.first)
    }
}
