// Matches terms: for each line `U,term,term` of standard input, `yes` with the common instance, or `no`.
#![tactic(auto)]

mod building;
mod parts;
mod problem;
mod writing;

use cells::Store;
use parts::INPUT_LIMIT;
use problem::Problem;
use std::alloc::Global;
use std::io;
use std::io::{BufWriter, Read, Write};

// So many bytes of answers are printed before the next line.
const TEXT_LIMIT: usize = 4096;

// The line under way, with at most one byte too many, the cells, what else answers it, and the answers that are still to be printed.
#[derive(Drop)]
struct Matcher {
    line: Vec<u8>,
    store: Store,
    problem: Problem,
    text: Vec<u8>,
}

impl Matcher {
    fn new(heap: Global) -> Matcher {
        Matcher {
            line: Vec::new(heap),
            store: Store::new(),
            problem: Problem::new(),
            text: Vec::new(heap),
        }
    }

    // Some bytes more: LF ends a line.
    fn take(&mut self, bytes: &[u8], output: &mut impl Write) -> io::Result<()> {
        for byte in bytes {
            match *byte {
                b'\n' => self.end_line(output)?,
                b if self.line.len() <= INPUT_LIMIT => self.line.push(b)?,
                _ => {}
            }
        }
        self.print(output)
    }

    // The line ends. Its answer is kept for the others of its bytes, but where that would grow long.
    fn end_line(&mut self, output: &mut impl Write) -> io::Result<()> {
        self.problem
            .answer(&mut self.store, self.line.as_slice(), &mut self.text)?;
        self.line.clear();
        if self.text.len() >= TEXT_LIMIT {
            self.print(output)?;
        }
        Ok(())
    }

    // Prints the answers that are kept.
    fn print(&mut self, output: &mut impl Write) -> io::Result<()> {
        output.write_all(self.text.as_slice())?;
        self.text.clear();
        Ok(())
    }
}

fn main(rt: HostRuntime) -> io::Result<()> {
    let mut input = rt.stdin();
    let mut output = BufWriter::new(rt.alloc(), rt.stdout())?;
    let mut matcher = Matcher::new(rt.alloc());
    // bytes that a reader hands out one by one cost more than all else that is done with them
    let mut chunk = [0; 4096];
    for _ in 0..u64::MAX {
        let n = input.read(&mut chunk)?;
        if n == 0 {
            break;
        }
        matcher.take(&chunk[..n], &mut output)?;
    }
    output.flush()
}
