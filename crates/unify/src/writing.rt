// A term of a store, written as fields.
use crate::parts::Part;
use answers::Numbering;
use arrayvec::{ArrayVec, CapacityError};
use cells::Store;
use heap::{CELL_LIMIT, Cell};
use itoa::Buffer;
use std::alloc::AllocError;

// The most fields that are written.
const FIELD_LIMIT: usize = 4096;

fn write_number(text: &mut Vec<u8>, n: u16) -> Result<(), AllocError> {
    text.extend_from_slice(Buffer::new().format(n).as_bytes())
}

// Pushes the arguments of a structure, the last first.
fn push_arguments(
    pending: &mut ArrayVec<u16, CELL_LIMIT>,
    first: u16,
    arity: u16,
) -> Result<(), CapacityError<u16>> {
    for i in (first..first.saturating_add(arity)).rev() {
        pending.try_push(i)?;
    }
    Ok(())
}

// What writing needs beside the text. It lives as long as the program: each term leaves it as it was.
#[derive(Drop)]
pub(crate) struct TermWriter {
    numbering: Numbering,
    // the cells that are still to be written, the next one last
    pending: ArrayVec<u16, CELL_LIMIT>,
}

impl TermWriter {
    pub(crate) fn new() -> TermWriter {
        TermWriter {
            numbering: Numbering::new(),
            pending: ArrayVec::new(),
        }
    }

    // Writes the term at `start`, with a comma before each field, and `,...` where it has too many.
    // The walk of `answers` does not serve: its sinks refuse for want of bytes alone, and here fields are counted and memory may run out.
    fn write_fields(
        &mut self,
        text: &mut Vec<u8>,
        store: &Store,
        line: &[u8],
        parts: &[Part],
        start: u16,
    ) -> Result<(), AllocError> {
        self.pending.clear();
        self.pending.push(start);
        for _ in 0..FIELD_LIMIT {
            let Some(at) = self.pending.pop() else {
                return Ok(());
            };
            if at >= store.top() {
                break;
            }
            let root = store.root(at);
            text.push(b',')?;
            match store.get(root) {
                Cell::Node {
                    symbol,
                    arity,
                    first,
                } => {
                    if let Some(part) = parts.get(symbol as usize) {
                        text.extend_from_slice(part.field(line))?;
                    }
                    if push_arguments(&mut self.pending, first, arity).is_err() {
                        break;
                    }
                }
                _ => {
                    text.push(b'_')?;
                    write_number(text, self.numbering.number(root))?;
                }
            }
        }
        text.extend_from_slice(b",...")
    }

    // Writes the term at `start` of a store that was built of the parts of the line.
    pub(crate) fn write(
        &mut self,
        text: &mut Vec<u8>,
        store: &Store,
        line: &[u8],
        parts: &[Part],
        start: u16,
    ) -> Result<(), AllocError> {
        let written = self.write_fields(text, store, line, parts, start);
        self.numbering.forget(store.top());
        written
    }
}
