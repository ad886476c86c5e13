// What stands for a line of a deck: its clause or query, or its refusal.
ghost use Rattle.std.specs.Prelude.{◌≡◌, ◌++◌, IfOk};
ghost use Rattle.prolog.specs.Proofread.{line_text, proof_text, verdict_of};
ghost use Rattle.prolog.specs.Puts.{read_text, read_verdict};

use crate::clauses::{put_clause, put_query};
use crate::refusals::put_refused;
use crate::verdict::Verdict;
use lines::{Kind, Line, LineFault, read_clause, read_query};
use std::alloc::AllocError;

// Appends what stands for a line that was read so, without its end.
fn proof_read(
    number: usize,
    read: Result<Line<'_>, LineFault>,
    out: &mut Vec<u8>,
) -> Result<Verdict, AllocError>
    ensures { IfOk result (λ v. (v ≡ read_verdict read.entry) × (out.new.items ≡ out.old.items ++ read_text number read.entry)) }
{
    match read {
        Ok(line) => {
            match line.kind {
                Kind::Clause => put_clause(line, out)?,
                Kind::Query => put_query(line, out)?,
            }
            Ok(line.kind.into())
        }
        Err(fault) => {
            put_refused(number, fault.into(), out)?;
            Ok(Verdict::Refused)
        }
    }
}

// Appends what stands for the line by its first letter, without its end.
fn proof_either(number: usize, line: &[u8], out: &mut Vec<u8>) -> Result<Verdict, AllocError>
    ensures { IfOk result (λ v. (v ≡ verdict_of line.now) × (out.new.items ≡ out.old.items ++ line_text number line.now)) }
{
    let read = if line.starts_with(b"Q") {
        read_query(line)
    } else {
        read_clause(line)
    };
    proof_read(number, read, out)
}

// Appends what stands for the line of this number, with its end, and answers what the line is.
pub fn proof_line(number: usize, line: &[u8], out: &mut Vec<u8>) -> Result<Verdict, AllocError>
    ensures { IfOk result (λ v. (v ≡ verdict_of line.now) × (out.new.items ≡ out.old.items ++ proof_text number line.now)) }
{
    let verdict = proof_either(number, line, out)?;
    out.push(b'\n')?;
    Ok(verdict)
}
