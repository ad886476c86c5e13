// The rows of an image.
ghost use Rattle.std.specs.Prelude.{◌≡◌, map};
ghost use Rattle.std.specs.Option.{option_map};
ghost use Rattle.image.specs.declared.faults.ImageFault.TheVariants.{Row as BadRow};
ghost use Rattle.image.specs.Rows.{row_of, next, good_row, row_fault};
ghost use Rattle.image.specs.Symbols.{err_part};

use crate::faults::ImageFault;

// A clause's predicate, its key, and where its code starts. A key is what an image's word has: 0, or 1 + a symbol.
#[derive(Clone, Copy, PartialEq, Eq)]
pub struct Row {
    pub predicate: usize,
    pub key: usize,
    pub start: usize,
}

impl From<[u32; 3]> for Row {
    ghost from_gives = { λ words r. r ≡ row_of words };

    fn from([predicate, key, start]: [u32; 3]) -> Row {
        Row {
            predicate: predicate as usize,
            key: key as usize,
            start: start as usize,
        }
    }
}

impl Row {
    // Whether row i is right, where its code ends at `end`: predicate and key in range, the first start 0, two words or more.
    fn is_good(self, i: usize, symbols: usize, end: usize) -> bool
        ensures { result ≡ good_row symbols i self end }
    {
        self.predicate < symbols
            && self.key <= symbols
            && (i != 0 || self.start == 0)
            && end.saturating_sub(self.start) >= 2
    }
}

// Where the code before these rows ends, of `size` code words.
pub(crate) fn end_before(rows: &[[u32; 3]], size: usize) -> usize
    ensures { result ≡ next size (map row_of rows.now) }
{
    match rows {
        [[_, _, start], ..] => *start as usize,
        [] => size,
    }
}

// The lowest clause, from 1, whose row is wrong is refused.
pub(crate) fn check_rows(rows: &[[u32; 3]], symbols: usize, size: usize) -> Result<(), ImageFault>
    ensures { err_part result ≡ option_map BadRow (row_fault symbols size 0 (map row_of rows.now)) }
{
    for (i, words) in rows.iter().enumerate() {
        let end = end_before(&rows[i + 1..], size);
        if !Row::from(*words).is_good(i, symbols, end) {
            return Err(ImageFault::Row { clause: i + 1 });
        }
    }
    Ok(())
}
