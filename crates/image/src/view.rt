// An accepted image.
ghost use Rattle.std.specs.Prelude.{◌≡◌, map};
ghost use Rattle.image.specs.Rows.{row_of, rows_of, nth};

use crate::rows::Row;
use crate::symbols::Symbols;

// A view of an image's words: its symbols, its rows, and its code. How many symbols there are is kept beside their words, which have no one length.
#[derive(Clone, Copy)]
pub struct Image<'a> {
    pub symbol_count: usize,
    pub symbols: &'a [u32],
    pub rows: &'a [u32],
    pub code: &'a [u32],
}

impl<'a> Image<'a> {
    // The symbols, from number 0 on.
    pub fn symbols(self) -> Symbols<'a>
        ensures { result.words.now ≡ self.entry.symbols.now }
    {
        Symbols {
            words: self.symbols,
        }
    }

    // The words of each row.
    #[tactic(auto, using(crate::proofs::RowLaws::rows_by_threes))]
    pub fn rows(self) -> &'a [[u32; 3]]
        ensures { map row_of result.now ≡ rows_of self.entry.rows.now }
    {
        let (rows, _) = self.rows.as_chunks::<3>();
        rows
    }

    // Row i, from 0, if there is one.
    pub fn row(self, i: usize) -> Option<Row>
        ensures { result ≡ nth (rows_of self.entry.rows.now) i }
    {
        let words = self.rows().get(i)?;
        Some(Row::from(*words))
    }
}
