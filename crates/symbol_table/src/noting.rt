// The symbols of a line.
ghost use Rattle.std.specs.Prelude.{◌≡◌, ◌<◌, length, OnOk, OnErr};
ghost use Rattle.lines.specs.Said.{words_left};
ghost use Rattle.lines.specs.Tokens.{word};
ghost use Rattle.symbol_table.specs.Numbers.{note_word, note_words};
ghost use Rattle.symbol_table.specs.Tables.{signature};
ghost use Rattle.symbol_table.specs.Noting.{Fine, Fines, Begins};

use crate::table::SymbolTable;
use arrayvec::CapacityError;
use lines::{Fields, Token};

// Notes a token's symbol; where it finds no room, nothing is noted.
fn note_token(symbols: &mut SymbolTable, token: Token<'_>) -> Result<(), CapacityError>
    requires { Fine (word token) }
    ensures noted { OnOk result (signature symbols.new ≡ note_word (signature symbols.old) (word token.entry)) }
    ensures full { OnErr result ((256 < length (note_word (signature symbols.old) (word token.entry))) × (signature symbols.new ≡ signature symbols.old)) }
{
    match token {
        Token::Name(f) => symbols.note(f, 0),
        Token::Structure(f, n) => symbols.note(f, n),
        Token::Variable(_) => Ok(()),
    }
}

// Notes the symbols of the tokens, by first occurrence, up to one that finds no room.
pub fn note_symbols(symbols: &mut SymbolTable, mut body: Fields<'_>) -> Result<(), CapacityError>
    requires { Fines (words_left body) }
    ensures noted { OnOk result (signature symbols.new ≡ note_words (signature symbols.old) (words_left body.entry)) }
    ensures full { OnErr result (256 < length (note_words (signature symbols.old) (words_left body.entry))) }
    ensures begins { Begins (signature symbols.old) (signature symbols.new) }
{
    while let Some(token) = body.next_token() {
        note_token(symbols, token)?;
    }
    Ok(())
}
