// The reading of a line: one pass over its fields, from the left, to the first fault.
ghost use Rattle.std.specs.Prelude.{◌≡◌, ℕ, ◌+◌, ◌^◌, ◌<◌, ◌≤◌, List, length, IfSome, IfOk};
ghost use Rattle.horn.specs.Notation.{arity};
ghost use Rattle.lines.specs.declared.kind.Kind.TheVariants.{Clause as ClauseLine, Query as QueryLine};
ghost use Rattle.lines.specs.Fields.{after};
ghost use Rattle.lines.specs.Lines.{cost, check, begins, goals_of};
ghost use Rattle.lines.specs.Lines.{read as written};
ghost use Rattle.lines.specs.Tokens.{word};
ghost use Rattle.lines.specs.Steps.{step};
ghost use Rattle.lines.specs.Said.{said, said_clause, said_query};
ghost use Rattle.lines.specs.Clauses.{read_clause, read_query, SpellsClause, SpellsQuery, OneReading};

use crate::bytes::cut;
use crate::faults::LineFault;
use crate::fields::Fields;
use crate::kind::Kind;
use crate::line::{LINE_LIMIT, Line};
use crate::tokens::{Token, read_token};

// The weight and the goals of a line, at most.
const WEIGHT_LIMIT: usize = 128;

const GOAL_LIMIT: u8 = 8;

// What a line's reader still awaits, and the weight so far. That the weight is low is asked and told by `take` alone.
#[derive(Clone, Copy)]
pub(crate) struct Awaited {
    // heads or goals
    goals: usize,
    // arguments, before the next goal
    need: usize,
    // the weight of the next goal's own field
    price: usize,
    weight: usize,
}

// What a token weighs as an argument.
fn cost_of(token: Token<'_>) -> usize
    ensures value { result ≡ cost (word token.entry) }
    ensures small { result ≤ 2 }
{
    match token {
        Token::Name(_) | Token::Variable(_) => 1,
        Token::Structure(_, _) => 2,
    }
}

impl Awaited {
    // What is awaited after one more token.
    fn take(self, token: Token<'_>, place: usize) -> Result<Awaited, LineFault>
        requires some { self.need ≡ 0 → 0 < self.goals }
        requires light { self.weight ≤ 128 }
        requires cheap { self.price ≤ 1 }
        requires few { self.need ≤ 2 ^ 32 }
        ensures value { result ≡ step self place (word token.entry) }
        ensures bounds { IfOk result (λ s. (s.need ≤ self.need + 256) × ((s.weight ≤ 128) × (s.price ≤ 1))) }
    {
        let next = if self.need == 0 {
            if matches!(token, Token::Variable(_)) {
                return Err(LineFault::Variable { place });
            }
            Awaited {
                goals: self.goals - 1,
                need: token.arity(),
                price: 1,
                weight: self.weight + self.price,
            }
        } else {
            Awaited {
                need: token.arity() + (self.need - 1),
                weight: self.weight + cost_of(token),
                ..self
            }
        };
        if next.weight > WEIGHT_LIMIT {
            return Err(LineFault::Heavy { place });
        }
        Ok(next)
    }
}

// The weight of the terms that the fields spell, `goals` of them, or the first fault.
fn check_fields(fields: Fields<'_>, goals: usize, price: usize) -> Result<usize, LineFault>
    requires few { goals ≤ 9 }
    requires cheap { price ≤ 1 }
    requires short { length fields.rest.now ≤ 512 }
    ensures { result ≡ check goals 0 price 0 3 (after fields.entry.rest.now) }
{
    let mut left = fields;
    let mut state = Awaited {
        goals,
        need: 0,
        price,
        weight: 0,
    };
    // counted beside the fields: `Fields` is no Iterator, and says why
    let mut place = 3;
    while let Some(field) = left.next_field() {
        if state.need == 0 && state.goals == 0 {
            return Err(LineFault::LeftOver { place });
        }
        let token = read_token(field, place)?;
        state = state.take(token, place)?;
        place += 1;
    }
    if state.need == 0 && state.goals == 0 {
        return Ok(state.weight);
    }
    Err(LineFault::Missing { place })
}

fn begins_as(kind: Kind, field: &[u8]) -> bool
    ensures { result ≡ begins kind field.now }
{
    matches!(field, [letter] if *letter == kind.mark())
}

// The number of goals that the second field gives, which is one digit.
fn goals_in(kind: Kind, field: &[u8]) -> Option<usize>
    ensures value { result ≡ goals_of kind field.now }
    ensures few { IfSome result (λ d. d ≤ 8) }
{
    let [digit] = field else {
        return None;
    };
    let goals = digit.checked_sub(b'0')?;
    (kind.least()..=GOAL_LIMIT)
        .contains(&goals)
        .then_some(goals as usize)
}

// What the line says as a line of this kind, or its first fault.
fn read<'a>(kind: Kind, line: &'a [u8]) -> Result<Line<'a>, LineFault>
    ensures value { said result ≡ written kind line.now }
    ensures kind { IfOk result (λ l. l.kind ≡ kind) }
{
    if line.is_empty() || line.len() > LINE_LIMIT {
        return Err(LineFault::Length);
    }
    let (first, rest) = cut(line, b',');
    if !begins_as(kind, first) {
        return Err(LineFault::Header { place: 1 });
    }
    let mut fields = Fields { rest };
    let second = fields.next_field().ok_or(LineFault::Missing { place: 2 })?;
    let goals = goals_in(kind, second).ok_or(LineFault::Header { place: 2 })?;
    let weight = check_fields(fields, kind.heads() + goals, kind.least() as usize)?;
    Ok(Line {
        kind,
        goals,
        weight,
        body: fields,
    })
}

// A clause and a query are read alike, but what is promised of them are values of two types.

// The clause that the line spells, or the line's first fault.
pub fn read_clause<'a>(line: &'a [u8]) -> Result<Line<'a>, LineFault>
    ensures value { said_clause result ≡ read_clause line.now }
    ensures one_reading { OneReading (SpellsClause line.now) (said_clause result) }
    ensures kind { IfOk result (λ l. l.kind ≡ ClauseLine) }
{
    read(Kind::Clause, line)
}

// The query that the line spells, or the line's first fault.
pub fn read_query<'a>(line: &'a [u8]) -> Result<Line<'a>, LineFault>
    ensures value { said_query result ≡ read_query line.now }
    ensures one_reading { OneReading (SpellsQuery line.now) (said_query result) }
    ensures kind { IfOk result (λ l. l.kind ≡ QueryLine) }
{
    read(Kind::Query, line)
}
