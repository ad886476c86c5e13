// Lines of a letter and numbers.
ghost use Rattle.std.specs.Prelude.{◌≡◌, ◌+◌, ◌≤◌, map, length, decimal};
ghost use Rattle.horn.specs.Notation.{tails, numbered};
ghost use Rattle.text.specs.Buffers.{wrote, filled, fitting};

use crate::decimals::{decimal_len, put_decimal};

// How many bytes the numbers take, a comma before each, if that is no more than `limit`.
fn numbers_len(numbers: &[usize], limit: usize) -> Option<usize>
    ensures { result ≡ fitting (tails (map decimal numbers.now)) limit }
{
    let mut len = 0;
    for n in numbers {
        let more = decimal_len(*n) + 1;
        if more > limit - len {
            return None;
        }
        len += more;
    }
    Some(len)
}

// Writes the numbers from `at` on, a comma before each.
fn put_numbers(out: &mut [u8], at: usize, numbers: &[usize])
    requires fits { at + length (tails (map decimal numbers.now)) ≤ length out.old }
    ensures { out.new ≡ wrote out.old at (tails (map decimal numbers.now)) }
{
    let mut end = at;
    for n in numbers {
        out[end] = b',';
        end = put_decimal(out, end + 1, *n);
    }
}

// Writes the letter and the numbers, with commas between, at the buffer's beginning, and answers the length;
// where they are longer than the buffer, it stays as it was. No Display: that writes part by part, and may end in between.
pub fn write_numbers(letter: u8, numbers: &[usize], buffer: &mut [u8]) -> Option<usize>
    ensures value { result ≡ fitting (numbered letter numbers.now) (length buffer.old) }
    ensures after { buffer.new ≡ filled (numbered letter numbers.now) buffer.old }
{
    if buffer.is_empty() {
        return None;
    }
    let len = numbers_len(numbers, buffer.len() - 1)?;
    buffer[0] = letter;
    put_numbers(buffer, 1, numbers);
    Some(len + 1)
}
