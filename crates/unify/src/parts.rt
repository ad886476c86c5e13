// The parts of a line: its tokens, and which of them are alike.
ghost use Rattle.std.specs.Prelude.{◌≤◌, length, IfSome};

use arrayvec::ArrayVec;
use lines::{Fields, Token};
use std::hash::{FoldHasher, Hasher};

// The most bytes of a line.
pub(crate) const INPUT_LIMIT: usize = 16384;

// The most parts that the terms of a line have.
pub(crate) const PART_LIMIT: usize = 2048;

// So many first parts are looked at in turn, and the others by buckets.
const FEW: usize = 8;

const BUCKETS: usize = 256;

// A part of a line. It holds the place of its field, and not the field, so that its memory serves for the next line too.
#[derive(Clone, Copy, Default)]
pub(crate) struct Part {
    // where its field begins and ends in the line
    start: u16,
    end: u16,
    // the place of the first part that stands for the same symbol or variable; a lone `_` is like no other
    pub(crate) first: u16,
    // the arity of its symbol; a variable has none
    pub(crate) arity: Option<u8>,
    // the part before it in its bucket
    before: Option<u16>,
}

impl Part {
    // The part that a token is, whose field begins at `start`, as if none were like it.
    fn of(token: Token<'_>, start: u16, here: u16) -> Part {
        let (len, arity) = match token {
            Token::Name(name) => (name.len(), Some(0)),
            Token::Structure(name, arity) => (name.len() + 2, Some(arity)),
            Token::Variable(name) => (name.len(), None),
        };
        Part {
            start,
            end: start.saturating_add(u16::try_from(len).unwrap_or(u16::MAX)),
            first: here,
            arity,
            before: None,
        }
    }

    // Its field.
    pub(crate) fn field(self, line: &[u8]) -> &[u8] {
        line.get(self.start as usize..self.end as usize)
            .unwrap_or(&[])
    }
}

// The bucket of a field.
fn bucket_of(field: &[u8]) -> usize {
    let mut hasher = FoldHasher::default();
    hasher.write(field);
    (hasher.finish() % BUCKETS as u64) as usize
}

// The parts of a line, in fixed memory that serves for the next line too.
#[derive(Drop)]
pub(crate) struct Parts {
    parts: ArrayVec<Part, PART_LIMIT>,
    // the last part of each bucket
    last: [Option<u16>; BUCKETS],
}

impl Parts {
    pub(crate) fn new() -> Parts {
        Parts {
            parts: ArrayVec::new(),
            last: [None; BUCKETS],
        }
    }

    // A line begins.
    fn begin(&mut self) {
        if self.parts.len() > FEW {
            self.last = [None; BUCKETS];
        }
        self.parts.clear();
    }

    // The first part in the field's bucket that has this field.
    fn first_in_bucket(&self, line: &[u8], field: &[u8]) -> Option<u16> {
        let mut at = *self.last.get(bucket_of(field))?;
        for _ in 0..PART_LIMIT {
            let part = self.parts.get(at? as usize)?;
            if part.field(line) == field {
                return Some(part.first);
            }
            at = part.before;
        }
        None
    }

    // The first part that has this field. Parts stand for the same symbol or variable just where their fields are the same.
    fn first_of(&self, line: &[u8], field: &[u8]) -> Option<u16> {
        for part in self.parts.iter().take(FEW) {
            if part.field(line) == field {
                return Some(part.first);
            }
        }
        if self.parts.len() > FEW {
            self.first_in_bucket(line, field)
        } else {
            None
        }
    }

    // Puts a part that is like none before it into its bucket, unless it is one of the first few.
    fn link(&mut self, part: &mut Part, field: &[u8]) {
        if self.parts.len() < FEW {
            return;
        }
        if let Some(last) = self.last.get_mut(bucket_of(field)) {
            part.before = *last;
            *last = Some(part.first);
        }
    }

    // Adds a part; none where there is no room.
    fn add(&mut self, line: &[u8], mut part: Part) -> Option<()> {
        let field = part.field(line);
        if !matches!(field, [b'_']) {
            match self.first_of(line, field) {
                Some(first) => part.first = first,
                None => self.link(&mut part, field),
            }
        }
        self.parts.try_push(part).ok()
    }

    // Takes the parts of a line after its letter; none where the line is too long or has another letter, a field has no form, or there are too many.
    pub(crate) fn read(&mut self, line: &[u8]) -> Option<&[Part]>
        ensures { IfSome result (λ parts. length parts.now ≤ 2048) }
    {
        self.begin();
        if line.len() > INPUT_LIMIT || !line.starts_with(b"U,") {
            return None;
        }
        let mut fields = Fields::of(line);
        let mut start = 2u16;
        while let Some(token) = fields.next_token() {
            let part = Part::of(token, start, self.parts.len() as u16);
            start = part.end.saturating_add(1);
            self.add(line, part)?;
        }
        fields.is_empty().then_some(self.parts.as_slice())
    }
}
