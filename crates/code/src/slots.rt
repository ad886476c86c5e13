// Rule V5: each slot is set exactly once, and read only afterwards.
ghost use Rattle.std.specs.Prelude.{◌≡◌, ◌<◌, ◌≤◌, true, map, is_some, slice_index_or};
ghost use Rattle.code.specs.Tests.{every, below};
ghost use Rattle.code.specs.Instructions.{sets};
ghost use Rattle.code.specs.Words.{decode};
ghost use Rattle.code.specs.Rules.{v5, builds};
ghost use Rattle.code.specs.Passes.{can_read, can_set, marked, inside};

use crate::instructions::Instruction;
use crate::structures::arity_at;
use crate::words::decode as decoded;

// For each slot that was set, the place from which on it may be read.
type Since = [Option<usize>; 256];

// Whether the slot may be read at place i.
fn can_read(since: &Since, i: usize, slot: Option<u8>) -> bool
    ensures { result ≡ can_read since.now i slot }
{
    slot.is_none_or(|y| since[y as usize].is_some_and(|place| place <= i))
}

// Whether the slot was not set yet.
fn can_set(since: &Since, slot: Option<u8>) -> bool
    ensures { result ≡ can_set since.now slot }
{
    slot.is_none_or(|y| since[y as usize].is_none())
}

// The slot may be read from `place` on.
fn mark(since: &mut Since, slot: Option<u8>, place: usize)
    ensures { since.new ≡ marked since.old slot place }
{
    if let Some(y) = slot {
        since[y as usize] = Some(place);
    }
}

// Whether each slot below `slots` was set.
fn all_set(since: &Since, slots: usize) -> bool
    requires { slots ≤ 256 }
    ensures { result ≡ below slots (λ y. is_some (slice_index_or since.now y None)) }
{
    since[..slots].iter().all(|place| place.is_some())
}

// How many set words follow the instruction, which sets its slot after them.
fn words_built(word: Instruction, arities: &[u8]) -> usize
    ensures value { result ≡ builds arities.now word }
    ensures small { result < 256 }
{
    match word {
        Instruction::PutStructure(_, f) => arity_at(arities, f as usize) as usize,
        _ => 0,
    }
}

// Each slot below `slots` is set once, and read only afterwards.
pub(crate) fn keeps_slots(code: &[u32], arities: &[u8], slots: usize) -> bool
    requires few { slots ≤ 256 }
    requires inside { every (λ w. inside slots (sets w)) (map decode code.now) ≡ true }
    ensures { result ≡ v5 slots arities.now (map decode code.now) }
{
    let mut since: Since = [None; 256];
    for (i, w) in code.iter().enumerate() {
        let word = decoded(*w);
        if !can_read(&since, i, word.reads()) || !can_set(&since, word.sets()) {
            return false;
        }
        mark(&mut since, word.sets(), i + 1 + words_built(word, arities));
    }
    all_set(&since, slots)
}
