// Tokens: a field as a name, a structure or a variable.
ghost use Rattle.std.specs.Prelude.{◌≡◌, ◌<◌};
ghost use Rattle.horn.specs.Notation.{arity};
ghost use Rattle.lines.specs.Lines.{word_at};
ghost use Rattle.lines.specs.Tokens.{word, word_in};

use crate::bytes::{cut, is_name, is_variable};
use crate::faults::FieldFault;

// The terms of a structure, at most.
pub const ARITY_LIMIT: u8 = 8;

// A field, as a part of the line itself.
#[derive(Clone, Copy, PartialEq, Eq, Hash)]
pub enum Token<'a> {
    Name(&'a [u8]),
    // a name and an arity
    Structure(&'a [u8], u8),
    Variable(&'a [u8]),
}

impl Token<'_> {
    // How many terms follow it as its own.
    pub fn arity(self) -> usize
        ensures value { result ≡ arity (word self.entry) }
        ensures small { result < 256 }
    {
        match self {
            Token::Structure(_, arity) => arity as usize,
            Token::Name(_) | Token::Variable(_) => 0,
        }
    }
}

// The token that the field at `place` is.
pub(crate) fn read_token<'a>(field: &'a [u8], place: usize) -> Result<Token<'a>, FieldFault>
    ensures { word_in result ≡ word_at place field.now }
{
    let (stem, rest) = cut(field, b'/');
    match rest {
        [] if is_name(stem) => Ok(Token::Name(stem)),
        [] if is_variable(stem) => Ok(Token::Variable(stem)),
        [_, digit @ b'1'..=b'8'] if is_name(stem) => Ok(Token::Structure(stem, *digit - b'0')),
        _ => Err(FieldFault::Form { place }),
    }
}
