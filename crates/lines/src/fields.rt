// The fields of a line, one after another.
ghost use Rattle.std.specs.Prelude.{◌≡◌, ◌<◌, [], ◌∷◌, length, drop, IfSome, IfNone, MatchOption, OnSome};
ghost use Rattle.lines.specs.Fields.{after};
ghost use Rattle.lines.specs.Said.{words_left, none_left};
ghost use Rattle.lines.specs.Tokens.{word, words_of};
ghost use Rattle.lines.specs.Words.{run};

use crate::bytes::cut;
use crate::tokens::{Token, read_token};

// The fields after one, from its comma on. No Iterator: what is left is copied and read again, and a field without a form takes nothing away. No Model: two things are said of it, its tokens and its bytes.
#[derive(Clone, Copy)]
pub struct Fields<'a> {
    pub(crate) rest: &'a [u8],
}

impl<'a> Fields<'a> {
    // The fields of a line after the first.
    pub fn of(line: &'a [u8]) -> Fields<'a>
        ensures { words_left result ≡ words_of (after (drop (run 44 line.now) line.now)) }
    {
        let (_, rest) = cut(line, b',');
        Fields { rest }
    }

    // Whether no field is left.
    pub fn is_empty(&self) -> bool
        ensures { result ≡ none_left self.now }
    {
        self.rest.is_empty()
    }

    pub(crate) fn next_field(&mut self) -> Option<&'a [u8]>
        ensures value { MatchOption result (after self.old.rest.now ≡ []) (λ f. after self.old.rest.now ≡ f.now ∷ after self.new.rest.now) }
        ensures shorter { IfSome result (λ f. length self.new.rest.now < length self.old.rest.now) }
    {
        let [_, line @ ..] = self.rest else {
            return None;
        };
        let (field, rest) = cut(line, b',');
        self.rest = rest;
        Some(field)
    }

    // The next field as a token; none where no field is left, which in an accepted line is the only case, or where the next has no form.
    pub fn next_token(&mut self) -> Option<Token<'a>>
        ensures value { MatchOption result (words_left self.old ≡ []) (λ t. words_left self.old ≡ word t ∷ words_left self.new) }
        ensures same { IfNone result (self.new ≡ self.old) }
        ensures shorter { OnSome result (length self.new.rest.now < length self.old.rest.now) }
    {
        let mut left = *self;
        let field = left.next_field()?;
        let token = read_token(field, 0).ok()?;
        *self = left;
        Some(token)
    }
}
