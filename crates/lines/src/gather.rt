// Lines gathered byte by byte, of any length, in fixed memory.
ghost use Rattle.std.specs.Prelude.{◌≡◌, ◌≤◌, [], ◌∷◌, ◌++◌, take};
ghost use Rattle.lines.specs.Clauses.{EnoughRead};

use crate::line::LINE_LIMIT;

// One byte more than a line may have: so much of a line tells what it is read as.
const ENOUGH: usize = LINE_LIMIT + 1;

// The beginning of a line, as much of it as tells what it is read as. An array and a length: a vector's clear, at each line's end,
// would write over every byte that it holds. No Model, which would hide its bound.
#[derive(Drop)]
pub struct Gathered {
    bytes: [u8; ENOUGH],
    len: usize,
    ghost within: { len ≤ 513 },
}

impl Gathered {
    pub fn new() -> Gathered
        ensures { take result.len result.bytes ≡ [] }
    {
        Gathered {
            bytes: [0; ENOUGH],
            len: 0,
        }
    }

    // One byte more of the line.
    pub fn push(&mut self, b: u8)
        ensures { take self.new.len self.new.bytes ≡ take 513 (take self.old.len self.old.bytes ++ b ∷ []) }
    {
        let len = self.len;
        if len < ENOUGH {
            self.bytes[len] = b;
            self.len = len + 1;
        }
    }

    // A new line begins.
    pub fn clear(&mut self)
        ensures { take self.new.len self.new.bytes ≡ [] }
    {
        self.len = 0;
    }

    // The line, or its first bytes where it is longer than any line may be: it is read alike.
    pub fn line(&self) -> &[u8]
        ensures value { result.now ≡ take self.now.len self.now.bytes }
        ensures enough { EnoughRead 513 }
    {
        &self.bytes[0..self.len]
    }
}
