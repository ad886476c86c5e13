// The header of an image.
ghost use Rattle.std.specs.Prelude.{◌≡◌, ◌≤◌};
ghost use Rattle.image.specs.Limits.{symbol_limit, clause_limit, code_limit};

use crate::faults::ImageFault;
use code::{CLAUSE_LIMIT, CODE_LIMIT};
use symbol_table::SYMBOL_LIMIT;

// The format of images.
pub const FORMAT: u32 = 1;

// How many symbols, clauses and code words there are.
#[derive(Clone, Copy)]
pub(crate) struct Header {
    pub(crate) symbols: usize,
    pub(crate) clauses: usize,
    pub(crate) size: usize,
    ghost some: { symbols ≤ symbol_limit },
    ghost few: { clauses ≤ clause_limit },
    ghost small: { size ≤ code_limit },
}

// The format and the counts, where the format is right and no count is above its limit.
impl TryFrom<[u32; 4]> for Header {
    ghost use Rattle.image.specs.Headers.{ReadsHeader};

    type Error = ImageFault;

    ghost try_from_gives = { ReadsHeader };

    fn try_from([format, symbols, clauses, size]: [u32; 4]) -> Result<Header, ImageFault> {
        let symbols = symbols as usize;
        let clauses = clauses as usize;
        let size = size as usize;
        if format != FORMAT
            || symbols > SYMBOL_LIMIT
            || clauses > CLAUSE_LIMIT
            || size > CODE_LIMIT
        {
            return Err(ImageFault::Header);
        }
        Ok(Header {
            symbols,
            clauses,
            size,
        })
    }
}

impl Header {
    ghost use Rattle.image.specs.Checked.{fitting};

    // Whether so many words are left for the rows and the code.
    pub(crate) fn fits(self, len: usize) -> bool
        ensures { result ≡ fitting len self.clauses self.size }
    {
        len == 3 * self.clauses + self.size && (self.clauses != 0 || self.size == 0)
    }
}
