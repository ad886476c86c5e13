// Rule V1: opcodes and operands are in range.
ghost use Rattle.std.specs.Prelude.{◌≡◌, ◌<◌};
ghost use Rattle.code.specs.Rules.{opened, in_range, legal, v1};

use crate::limits::{ARGUMENT_LIMIT, SLOT_LIMIT};
use crate::table::{Kind, look_up};
use crate::words::{first_of, opcode_of, second_of};

// The slots that the code opens. By the opcode: V1 is said of words.
pub fn opened_by(code: &[u32]) -> usize
    ensures value { result ≡ opened code.now }
    ensures small { result < 256 }
{
    match code {
        [word, ..] if opcode_of(*word) == 1 => first_of(*word) as usize,
        _ => 0,
    }
}

// Whether an operand of this kind may have the value.
fn in_range(kind: Kind, value: usize, slots: usize, arities: &[u8]) -> bool
    ensures { result ≡ in_range slots arities.now kind value }
{
    match kind {
        Kind::Nothing => value == 0,
        Kind::Slots => value <= SLOT_LIMIT,
        Kind::Slot => value < slots,
        Kind::Argument => (1..=ARGUMENT_LIMIT).contains(&value),
        Kind::Constant => arities.get(value).is_some_and(|a| *a == 0),
        Kind::Structure => arities.get(value).is_some_and(|a| *a >= 1),
        Kind::Predicate => value < arities.len(),
    }
}

// Whether the word has an opcode and operands in range.
fn is_legal(word: u32, slots: usize, arities: &[u8]) -> bool
    ensures { result ≡ legal slots arities.now word }
{
    let Some(entry) = look_up(opcode_of(word)) else {
        return false;
    };
    in_range(entry.first, first_of(word) as usize, slots, arities)
        && in_range(entry.second, second_of(word) as usize, slots, arities)
}

// Whether each word is legal.
pub(crate) fn keeps_ranges(code: &[u32], arities: &[u8]) -> bool
    ensures { result ≡ v1 arities.now code.now }
{
    let slots = opened_by(code);
    code.iter().all(|w| is_legal(*w, slots, arities))
}
