// One problem: two terms to make one.
ghost use Rattle.std.specs.Prelude.{◌≡◌};
ghost use Rattle.cells.specs.Stores.{cells_of, bound_of};
ghost use Rattle.unify.specs.Grows.{Grows};

use crate::building::{Draft, build};
use crate::parts::{Part, Parts};
use crate::writing::TermWriter;
use cells::Store;
use matching::Unlike;
use std::alloc::AllocError;

const REFUSED: &[u8] = b"refused\n";

// What came of a problem; the common instance has a cell.
#[derive(Clone, Copy)]
enum Outcome {
    Refused,
    Apart,
    Common(u16),
}

// Makes the cells one, as `Store::unify` does it.
fn unified(store: &mut Store, a: u16, b: u16) -> Result<(), Unlike>
    ensures { Grows store.old store.new }
{
    let top = store.top();
    if a >= top || b >= top {
        return Err(Unlike);
    }
    store.unify(a, b)
}

// Makes the two terms of a line one.
#[tactic(auto, using(cells::proofs::GrowthLaws::grew_trans))]
fn matched(store: &mut Store, parts: &[Part], draft: &mut Draft) -> Outcome
    ensures { Grows store.old store.new }
{
    let Some((a, b)) = build(store, parts, draft) else {
        return Outcome::Refused;
    };
    match unified(store, a, b) {
        Ok(()) => Outcome::Common(a),
        Err(Unlike) => Outcome::Apart,
    }
}

fn write_outcome(
    text: &mut Vec<u8>,
    store: &Store,
    line: &[u8],
    parts: &[Part],
    writer: &mut TermWriter,
    outcome: Outcome,
) -> Result<(), AllocError> {
    match outcome {
        Outcome::Refused => text.extend_from_slice(REFUSED),
        Outcome::Apart => text.extend_from_slice(b"no\n"),
        Outcome::Common(a) => {
            text.extend_from_slice(b"yes")?;
            writer.write(text, store, line, parts, a)?;
            text.extend_from_slice(b"\n")
        }
    }
}

// Writes the common instance of the terms of a line, or that there is none; the store is then as it was.
fn solve(
    store: &mut Store,
    line: &[u8],
    parts: &[Part],
    draft: &mut Draft,
    writer: &mut TermWriter,
    text: &mut Vec<u8>,
) -> Result<(), AllocError>
    ensures cells { cells_of store.new ≡ cells_of store.old }
    ensures trail { bound_of store.new ≡ bound_of store.old }
{
    let mark = store.mark();
    let top = store.top();
    let outcome = matched(store, parts, draft);
    let written = write_outcome(text, store, line, parts, writer, outcome);
    store.leave(mark, top);
    written
}

// What answers a line beside the store, in memory that serves for every line.
#[derive(Drop)]
pub(crate) struct Problem {
    parts: Parts,
    draft: Draft,
    writer: TermWriter,
}

impl Problem {
    pub(crate) fn new() -> Problem {
        Problem {
            parts: Parts::new(),
            draft: Draft::new(),
            writer: TermWriter::new(),
        }
    }

    // Writes the answer to a line.
    pub(crate) fn answer(
        &mut self,
        store: &mut Store,
        line: &[u8],
        text: &mut Vec<u8>,
    ) -> Result<(), AllocError> {
        let Some(parts) = self.parts.read(line) else {
            return text.extend_from_slice(REFUSED);
        };
        solve(store, line, parts, &mut self.draft, &mut self.writer, text)
    }
}
