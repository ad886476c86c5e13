// Reads a deck aloud: each line of standard input in Prolog notation, or its refusal.
#![tactic(auto)]

use lines::Gathered;
use prolog::{Verdict, proof_line};
use std::alloc::{AllocError, Global};
use std::io::{BufWriter, Read, Write};
use std::{fmt, io};

// How many lines were read, and as what.
#[derive(Clone, Copy, Default)]
struct Totals {
    lines: usize,
    clauses: usize,
    queries: usize,
    refused: usize,
}

impl Totals {
    fn count(&mut self, verdict: Verdict) {
        let kind = match verdict {
            Verdict::Clause => &mut self.clauses,
            Verdict::Query => &mut self.queries,
            Verdict::Refused => &mut self.refused,
        };
        *kind = kind.saturating_add(1);
    }
}

impl fmt::Display for Totals {
    fn fmt<W: fmt::Write>(&self, f: &mut fmt::Formatter<W>) -> fmt::Result {
        let Totals {
            lines,
            clauses,
            queries,
            refused,
        } = *self;
        write!(
            f,
            "{lines} lines: {clauses} clauses, {queries} queries, {refused} refused"
        )
    }
}

// The line under way, what stands for the lines before it that is still to be printed, and the totals.
#[derive(Drop)]
struct Proofreader {
    line: Gathered,
    text: Vec<u8>,
    totals: Totals,
}

impl Proofreader {
    fn new(heap: Global) -> Proofreader {
        Proofreader {
            line: Gathered::new(),
            text: Vec::new(heap),
            totals: Totals::default(),
        }
    }

    // Some bytes more of the deck: LF ends a line.
    fn take(&mut self, bytes: &[u8]) -> Result<(), AllocError> {
        for byte in bytes {
            match *byte {
                b'\n' => self.end_line()?,
                b => self.line.push(b),
            }
        }
        Ok(())
    }

    fn end_line(&mut self) -> Result<(), AllocError> {
        self.totals.lines = self.totals.lines.saturating_add(1);
        let verdict = proof_line(self.totals.lines, self.line.line(), &mut self.text)?;
        self.totals.count(verdict);
        self.line.clear();
        Ok(())
    }

    // Prints what is still to be printed.
    fn print(&mut self, output: &mut impl Write) -> io::Result<()> {
        output.write_all(self.text.as_slice())?;
        self.text.clear();
        Ok(())
    }
}

fn main(rt: HostRuntime) -> io::Result<()> {
    let mut input = rt.stdin();
    let mut output = BufWriter::new(rt.alloc(), rt.stdout())?;
    let mut reader = Proofreader::new(rt.alloc());
    // bytes that a reader hands out one by one, or lines printed one by one, cost more than all else that is done with them
    let mut chunk = [0; 4096];
    for _ in 0..u64::MAX {
        let n = input.read(&mut chunk)?;
        if n == 0 {
            break;
        }
        reader.take(&chunk[..n])?;
        reader.print(&mut output)?;
    }
    // a last line without LF is a line
    if !reader.line.line().is_empty() {
        reader.end_line()?;
        reader.print(&mut output)?;
    }
    let totals = reader.totals;
    writeln!(output, "% {totals}")?;
    output.flush()
}
