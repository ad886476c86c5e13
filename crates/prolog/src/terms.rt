// Terms as Prolog writes them. Tokens and text stay two parameters: the one is taken from, the other added to, and nothing is said of both together.
ghost use Rattle.std.specs.Prelude.{◌≡◌, ◌≤◌, ◌++◌, length, OnOk};
ghost use Rattle.lines.specs.Said.{words_left};
ghost use Rattle.prolog.specs.Prolog.{atom};
ghost use Rattle.prolog.specs.Puts.{TermPut, ListPut};

use lines::{Fields, Token, all_plain};
use std::alloc::AllocError;

fn put_atom(name: &[u8], out: &mut Vec<u8>) -> Result<(), AllocError>
    ensures { OnOk result (out.new.items ≡ out.old.items ++ atom name.now) }
{
    if all_plain(name) {
        return out.extend_from_slice(name);
    }
    out.push(b'\'')?;
    out.extend_from_slice(name)?;
    out.push(b'\'')?;
    Ok(())
}

// Appends the term that the tokens begin with, and takes its tokens.
#[cycle(put_list_put_term)]
pub(crate) fn put_term(tokens: &mut Fields<'_>, out: &mut Vec<u8>) -> Result<(), AllocError>
    ensures text { OnOk result (TermPut (words_left tokens.old) (words_left tokens.new) out.old.items out.new.items) }
    ensures fewer { OnOk result (length (words_left tokens.new) ≤ length (words_left tokens.old)) }
{
    let Some(token) = tokens.next_token() else {
        return Ok(());
    };
    match token {
        Token::Name(name) => put_atom(name, out),
        Token::Variable(name) => out.extend_from_slice(name),
        Token::Structure(name, arity) => {
            put_atom(name, out)?;
            out.push(b'(')?;
            put_list(tokens, arity as usize, out)?;
            Ok(out.push(b')')?)
        }
    }
}

// Appends `count` terms and takes their tokens, a comma and a space between each two.
#[cycle(put_list_put_term)]
pub(crate) fn put_list(
    tokens: &mut Fields<'_>,
    count: usize,
    out: &mut Vec<u8>,
) -> Result<(), AllocError>
    ensures text { OnOk result (ListPut count (words_left tokens.old) (words_left tokens.new) out.old.items out.new.items) }
    ensures fewer { OnOk result (length (words_left tokens.new) ≤ length (words_left tokens.old)) }
{
    if count == 0 {
        return Ok(());
    }
    put_term(tokens, out)?;
    for _ in 1..count {
        out.extend_from_slice(b", ")?;
        put_term(tokens, out)?;
    }
    Ok(())
}
