// Bytes, names and numbers put into a sink.
ghost use Rattle.std.specs.Prelude.{decimal, is_ok};
ghost use Rattle.answers.specs.Takes.{Puts};

use crate::names::Names;
use crate::sink::Sink;
use arrayvec::CapacityError;
use itoa::Buffer;

// Puts each of the bytes.
pub(crate) fn put_bytes<S: Sink>(
    sink: &mut S,
    out: &mut [u8],
    bytes: &[u8],
) -> Result<(), CapacityError>
    ensures { Puts S S.room S.holds (is_ok result) sink.old out.old sink.new out.new bytes.now }
{
    for b in bytes {
        sink.put(out, *b)?;
    }
    Ok(())
}

// Puts the name of a symbol.
pub(crate) fn put_name<S: Sink, N: Names>(
    sink: &mut S,
    out: &mut [u8],
    names: &N,
    symbol: u16,
) -> Result<(), CapacityError>
    ensures { Puts S S.room S.holds (is_ok result) sink.old out.old sink.new out.new (N.Names.naming names.now symbol) }
{
    // by index: `Names` gives a name byte by byte, and says why
    for i in 0..names.name_len(symbol) {
        sink.put(out, names.name_byte(symbol, i))?;
    }
    Ok(())
}

// Puts a number in decimal.
pub(crate) fn put_decimal<S: Sink>(
    sink: &mut S,
    out: &mut [u8],
    n: usize,
) -> Result<(), CapacityError>
    ensures { Puts S S.room S.holds (is_ok result) sink.old out.old sink.new out.new (decimal n) }
{
    put_bytes(sink, out, Buffer::new().format(n).as_bytes())
}
