// Refusals as comments.
ghost use Rattle.std.specs.Prelude.{◌≡◌, ◌++◌, OnOk};
ghost use Rattle.lines.specs.Refusals.{refusal_line};
ghost use Rattle.prolog.specs.Proofread.{refused_text};

use itoa::Buffer;
use lines::{REFUSAL_LIMIT, Refusal};
use std::alloc::AllocError;

// Appends the line that the refusal is written as, which always fits.
fn put_refusal(refusal: Refusal, out: &mut Vec<u8>) -> Result<(), AllocError>
    ensures { OnOk result (out.new.items ≡ out.old.items ++ refusal_line refusal) }
{
    let mut line = [0; REFUSAL_LIMIT];
    if let Ok(len) = refusal.write(&mut line) {
        out.extend_from_slice(&line[..len])?;
    }
    Ok(())
}

// Appends the comment for the refused line of this number.
pub(crate) fn put_refused(
    number: usize,
    refusal: Refusal,
    out: &mut Vec<u8>,
) -> Result<(), AllocError>
    ensures { OnOk result (out.new.items ≡ out.old.items ++ refused_text number refusal) }
{
    out.extend_from_slice(b"% ")?;
    out.extend_from_slice(Buffer::new().format(number).as_bytes())?;
    out.extend_from_slice(b": ")?;
    put_refusal(refusal, out)
}
