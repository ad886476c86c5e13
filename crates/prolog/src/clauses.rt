// Clauses and queries as Prolog writes them.
ghost use Rattle.std.specs.Prelude.{◌≡◌, ◌++◌, OnOk};
ghost use Rattle.lines.specs.declared.kind.Kind.TheVariants.{Clause as ClauseLine, Query as QueryLine};
ghost use Rattle.lines.specs.Said.{words_left, terms_of};
ghost use Rattle.prolog.specs.Prolog.{body_text, rule_text, goal_text};
ghost use Rattle.prolog.specs.Puts.{AllPut};

use crate::terms::{put_list, put_term};
use lines::{Fields, Line};
use std::alloc::AllocError;

// Appends the goals of a clause.
fn put_body(tokens: &mut Fields<'_>, count: usize, out: &mut Vec<u8>) -> Result<(), AllocError>
    ensures { OnOk result (AllPut body_text count (words_left tokens.old) out.old.items out.new.items) }
{
    if count == 0 {
        return Ok(());
    }
    out.extend_from_slice(b" :- ")?;
    put_list(tokens, count, out)
}

pub(crate) fn put_clause(clause: Line<'_>, out: &mut Vec<u8>) -> Result<(), AllocError>
    requires { clause.kind ≡ ClauseLine }
    ensures { OnOk result (out.new.items ≡ out.old.items ++ rule_text (terms_of clause.entry)) }
{
    let mut tokens = clause.body;
    put_term(&mut tokens, out)?;
    put_body(&mut tokens, clause.goals, out)?;
    Ok(out.push(b'.')?)
}

pub(crate) fn put_query(query: Line<'_>, out: &mut Vec<u8>) -> Result<(), AllocError>
    requires { query.kind ≡ QueryLine }
    ensures { OnOk result (out.new.items ≡ out.old.items ++ goal_text (terms_of query.entry)) }
{
    out.extend_from_slice(b"% ?- ")?;
    let mut tokens = query.body;
    put_list(&mut tokens, query.goals, out)?;
    Ok(out.push(b'.')?)
}
