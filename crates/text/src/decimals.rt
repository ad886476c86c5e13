// Numbers in decimal.
ghost use Rattle.std.specs.Prelude.{◌≡◌, ◌+◌, ◌≤◌, length, decimal};
ghost use Rattle.text.specs.Buffers.{wrote};

use itoa::Buffer;

// How many digits `n` has.
pub(crate) fn decimal_len(n: usize) -> usize
    ensures value { result ≡ length (decimal n) }
    ensures short { result ≤ 20 }
{
    Buffer::new().format(n).len()
}

// Writes `n` from `at` on, and answers where it ends. The buffer is lent: nothing is allocated.
pub(crate) fn put_decimal(out: &mut [u8], at: usize, n: usize) -> usize
    requires fits { at + length (decimal n) ≤ length out.old }
    ensures end { result ≡ at + length (decimal n) }
    ensures after { out.new ≡ wrote out.old at (decimal n) }
{
    let mut digits = Buffer::new();
    let text = digits.format(n).as_bytes();
    let end = at + text.len();
    out[at..end].copy_from_slice(text);
    end
}
