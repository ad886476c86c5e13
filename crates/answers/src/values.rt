// Terms put into a sink, out of the cells that stand for them.
ghost use Rattle.std.specs.Prelude.{◌≡◌, ℕ, ◌<◌, List, [], length, is_ok, IfOk, OnOk, MatchBool, nat_eq};
ghost use Rattle.arrayvec.specs.ArrayVec.{array_vec_len};
ghost use Rattle.heap.specs.Heaps.{Rooted, cell};
ghost use Rattle.heap.specs.Limits.{cell_limit};
ghost use Rattle.heap.specs.Solutions.{Valuation};
ghost use Rattle.horn.specs.Answers.{note, through};
ghost use Rattle.answers.specs.Frames.{Stands, field_at, seen_at, frame_at, added};
ghost use Rattle.answers.specs.Streams.{written};
ghost use Rattle.answers.specs.Numbering.{Numbered};
ghost use Rattle.answers.specs.Takes.{Puts};

use crate::fields::{put_label, put_symbol};
use crate::frame::Frame;
use crate::names::Names;
use crate::numbering::Numbering;
use crate::sink::Sink;
use crate::terms::Terms;
use arrayvec::{ArrayVec, CapacityError};
use heap::{CELL_LIMIT, Cell, root};

// What one pass over the terms works with: it is large, so it is made once and lent to each term.
#[derive(Drop)]
pub(crate) struct Scratch {
    pub(crate) numbering: Numbering,
    // the frames of the term that is being put
    stack: ArrayVec<Frame, CELL_LIMIT>,
}

impl Scratch {
    pub(crate) fn new() -> Scratch
        ensures { Numbered [] result.numbering.numbers result.numbering.seen }
    {
        Scratch {
            numbering: Numbering::new(),
            stack: ArrayVec::new(),
        }
    }
}

// Pushes a frame, unless it is empty.
fn push_frame(stack: &mut ArrayVec<Frame, CELL_LIMIT>, frame: Frame)
    requires { 0 < frame.left → array_vec_len stack.old < cell_limit }
    ensures { stack.new.items ≡ added frame stack.old.items }
{
    if frame.left > 0 {
        stack.push(frame);
    }
}

impl<'a, N: Names> Terms<'a, N> {
    // Puts the first field of the term at `at`, and answers the frame of its arguments.
    fn put_field<S: Sink>(
        &self,
        sink: &mut S,
        out: &mut [u8],
        numbering: &mut Numbering,
        at: u16,
    ) -> Result<Frame, CapacityError>
        requires within { at < length self.now.cells.now }
        requires rooted { Rooted (cell self.now.cells.now at) }
        ensures frame { IfOk result (λ f. f ≡ frame_at (cell self.now.cells.now at) at) }
        ensures smaller { OnOk result (S.room sink.new out.new < S.room sink.old out.old) }
        ensures after { (us : List ℕ) → Numbered us numbering.old.numbers numbering.old.seen → Puts S S.room S.holds (is_ok result) sink.old out.old sink.new out.new (field_at (N.Names.naming self.now.names.now) (cell self.now.cells.now at) at us) × Numbered (seen_at (cell self.now.cells.now at) at us) numbering.new.numbers numbering.new.seen }
    {
        match self.cells[at as usize] {
            Cell::Node {
                symbol,
                arity,
                first,
            } => {
                put_symbol(sink, out, self.names, symbol, arity)?;
                Ok(Frame {
                    owner: at,
                    next: first,
                    left: arity,
                })
            }
            _ => {
                put_label(sink, out, numbering.number(at))?;
                Ok(Frame {
                    owner: at,
                    next: at,
                    left: 0,
                })
            }
        }
    }

    // Puts the term at `start`.
    pub(crate) fn put_value<S: Sink>(
        &self,
        sink: &mut S,
        out: &mut [u8],
        scratch: &mut Scratch,
        start: u16,
    ) -> Result<(), CapacityError>
        requires { start < length self.now.cells.now }
        ensures { (us : List ℕ) (ρ : Valuation) → Numbered us scratch.old.numbering.numbers scratch.old.numbering.seen → Stands (N.Names.naming self.now.names.now) self.now.cells.now ρ → Puts S S.room S.holds (is_ok result) sink.old out.old sink.new out.new (written (ρ start) us) × MatchBool (is_ok result) (Numbered (through (note nat_eq) (ρ start) us) scratch.new.numbering.numbers scratch.new.numbering.seen) (Unit {0}) }
    {
        scratch.stack.clear();
        let mut at = start;
        loop {
            let place = root(self.cells, at);
            let frame = self.put_field(sink, out, &mut scratch.numbering, place)?;
            push_frame(&mut scratch.stack, frame);
            let Some(top) = scratch.stack.pop() else {
                return Ok(());
            };
            let rest = Frame {
                owner: top.owner,
                next: top.next + 1,
                left: top.left - 1,
            };
            push_frame(&mut scratch.stack, rest);
            at = top.next;
        }
    }
}
