// Answer lines.
ghost use Rattle.std.specs.Prelude.{◌≡◌, ℕ, ◌≤◌, List, [], length, is_ok, MatchBool, nat_eq};
ghost use Rattle.heap.specs.Heaps.{Sound, Closed};
ghost use Rattle.heap.specs.Limits.{cell_limit};
ghost use Rattle.heap.specs.Solutions.{Valuation};
ghost use Rattle.horn.specs.Answers.{Values, answer_line, note, through};
ghost use Rattle.horn.specs.Clauses.{Query};
ghost use Rattle.text.specs.Buffers.{filled, fitting};
ghost use Rattle.answers.specs.Frames.{Stands};
ghost use Rattle.answers.specs.Shows.{Digits, Inside, InsideAll, Shows};
ghost use Rattle.answers.specs.Streams.{told, told_one, told_all};
ghost use Rattle.answers.specs.Numbering.{Numbered};
ghost use Rattle.answers.specs.Takes.{Puts};

use crate::buffer::{Count, Write};
use crate::bytes::{put_bytes, put_decimal};
use crate::names::Names;
use crate::sink::Sink;
use crate::terms::Terms;
use crate::values::Scratch;
use crate::variable::Variable;
use arrayvec::CapacityError;
use heap::Cell;

impl<'a, N: Names> Terms<'a, N> {
    // Puts a variable's name and its term.
    fn put_variable<S: Sink>(
        &self,
        sink: &mut S,
        out: &mut [u8],
        scratch: &mut Scratch,
        line: &[u8],
        variable: Variable,
    ) -> Result<(), CapacityError>
        requires { Inside line.now self.now.cells.now variable }
        ensures { (us : List ℕ) (ρ : Valuation) → Numbered us scratch.old.numbering.numbers scratch.old.numbering.seen → Stands (N.Names.naming self.now.names.now) self.now.cells.now ρ → Puts S S.room S.holds (is_ok result) sink.old out.old sink.new out.new (told_one line.now ρ variable us) × MatchBool (is_ok result) (Numbered (through (note nat_eq) (ρ variable.cell) us) scratch.new.numbering.numbers scratch.new.numbering.seen) (Unit {0}) }
    {
        sink.put(out, b',')?;
        let start = variable.start as usize;
        let end = start + variable.len as usize;
        put_bytes(sink, out, &line[start..end])?;
        self.put_value(sink, out, scratch, variable.cell)
    }

    // Puts all variables. Line and variables stay two parameters: a struct of both would be made for one call.
    fn put_variables<S: Sink>(
        &self,
        sink: &mut S,
        out: &mut [u8],
        line: &[u8],
        variables: &[Variable],
    ) -> Result<(), CapacityError>
        requires { InsideAll line.now self.now.cells.now variables.now }
        ensures { (ρ : Valuation) → Stands (N.Names.naming self.now.names.now) self.now.cells.now ρ → Puts S S.room S.holds (is_ok result) sink.old out.old sink.new out.new (told line.now ρ variables.now []) }
    {
        let mut scratch = Scratch::new();
        for &v in variables {
            self.put_variable(sink, out, &mut scratch, line, v)?;
        }
        Ok(())
    }

    // Puts the whole line.
    fn put_answer<S: Sink>(
        &self,
        sink: &mut S,
        out: &mut [u8],
        line: &[u8],
        variables: &[Variable],
    ) -> Result<(), CapacityError>
        requires { InsideAll line.now self.now.cells.now variables.now }
        ensures { (ρ : Valuation) → Stands (N.Names.naming self.now.names.now) self.now.cells.now ρ → Puts S S.room S.holds (is_ok result) sink.old out.old sink.new out.new (told_all line.now ρ variables.now) }
    {
        put_bytes(sink, out, b"A,")?;
        put_decimal(sink, out, variables.len())?;
        self.put_variables(sink, out, line, variables)
    }
}

// Writes the answer line at the buffer's beginning, and answers its length; where it is longer than the buffer, this stays as it was.
// `line` is the query's, and `variables` are the query's other than `_`, by first occurrence.
// The line is counted before it is written, and no further than the buffer is long. The buffer is lent, since nothing is allocated.
pub fn write_answer<N: Names>(
    names: &N,
    line: &[u8],
    variables: &[Variable],
    cells: &[Cell],
    buffer: &mut [u8],
) -> Option<usize>
    requires sound { Sound cells.now }
    requires closed { Closed cells.now }
    requires digits { Digits cells.now }
    requires small { length cells.now ≤ cell_limit }
    requires inside { InsideAll line.now cells.now variables.now }
    ensures value { (q : Query) (θ : Values) → Shows (N.Names.naming names.now) cells.now line.now variables.now q θ → result ≡ fitting (answer_line q θ) (length buffer.old) }
    ensures after { (q : Query) (θ : Values) → Shows (N.Names.naming names.now) cells.now line.now variables.now q θ → buffer.new ≡ filled (answer_line q θ) buffer.old }
{
    let terms = Terms { names, cells };
    let mut count = Count {
        len: 0,
        limit: buffer.len(),
    };
    terms.put_answer(&mut count, buffer, line, variables).ok()?;
    let mut write = Write { len: 0 };
    terms
        .put_answer(&mut write, buffer, line, variables)
        .unwrap();
    Some(write.len)
}
