// Fields put into a sink, a comma before each.
ghost use Rattle.std.specs.Prelude.{◌<◌, ◌∷◌, decimal, is_ok};
ghost use Rattle.horn.specs.Notation.{field, word_for};
ghost use Rattle.answers.specs.Takes.{Puts};

use crate::bytes::{put_bytes, put_decimal, put_name};
use crate::names::Names;
use crate::sink::Sink;
use arrayvec::CapacityError;

// Puts the label of the n-th unbound variable.
pub(crate) fn put_label<S: Sink>(sink: &mut S, out: &mut [u8], n: u16) -> Result<(), CapacityError>
    ensures { Puts S S.room S.holds (is_ok result) sink.old out.old sink.new out.new (44 ∷ 95 ∷ decimal n) }
{
    put_bytes(sink, out, b",_")?;
    put_decimal(sink, out, n as usize)
}

// Puts a name, with its arity if there are arguments.
pub(crate) fn put_symbol<S: Sink, N: Names>(
    sink: &mut S,
    out: &mut [u8],
    names: &N,
    symbol: u16,
    arity: u16,
) -> Result<(), CapacityError>
    requires { arity < 10 }
    ensures { Puts S S.room S.holds (is_ok result) sink.old out.old sink.new out.new (44 ∷ field (word_for (N.Names.naming names.now symbol) arity)) }
{
    sink.put(out, b',')?;
    put_name(sink, out, names, symbol)?;
    if arity == 0 {
        return Ok(());
    }
    sink.put(out, b'/')?;
    // one digit, as an arity has in a line
    sink.put(out, b'0' + arity as u8)
}
