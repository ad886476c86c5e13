// Rule V4: a structure's words follow it at once, as many as its symbol's arity, and stand nowhere else.
ghost use Rattle.std.specs.Prelude.{◌≡◌, ◌<◌, map, slice_index};
ghost use Rattle.code.specs.Words.{decode};
ghost use Rattle.code.specs.Rules.{v4};
ghost use Rattle.code.specs.Passes.{nothing_due, due_after, due_step};

use crate::instructions::Instruction;
use crate::words::decode as decoded;

// How many unify words and how many set words are due. Two counts and no enum: an enum with a count in each case has more than one state in which nothing is due.
#[derive(Clone, Copy)]
pub(crate) struct Due {
    unify: u8,
    set: u8,
}

const NOTHING: Due = Due { unify: 0, set: 0 };

// The arity of a symbol; 0 where there is none of this number. No Option: the rules ask it of any number.
pub fn arity_at(arities: &[u8], symbol: usize) -> u8
    ensures { result ≡ slice_index arities.now symbol }
{
    arities.get(symbol).copied().unwrap_or(0)
}

// What is due after an instruction.
fn due_after(word: Instruction, arities: &[u8]) -> Due
    ensures { result ≡ due_after arities.now word }
{
    match word {
        Instruction::GetStructure(_, f) => Due {
            unify: arity_at(arities, f as usize),
            ..NOTHING
        },
        Instruction::PutStructure(_, f) => Due {
            set: arity_at(arities, f as usize),
            ..NOTHING
        },
        _ => NOTHING,
    }
}

impl Due {
    fn is_nothing(self) -> bool
        ensures { result ≡ nothing_due self }
    {
        self.unify == 0 && self.set == 0
    }

    // What is due after one more instruction, unless it is out of place.
    fn step(self, word: Instruction, arities: &[u8]) -> Option<Due>
        ensures { result ≡ due_step arities.now self word }
    {
        match (self.unify, self.set) {
            (n @ 1.., 0) if word.is_unify() => Some(Due {
                unify: n - 1,
                set: 0,
            }),
            (0, n @ 1..) if word.is_set() => Some(Due {
                unify: 0,
                set: n - 1,
            }),
            (0, 0) if !word.is_unify() && !word.is_set() => Some(due_after(word, arities)),
            _ => None,
        }
    }
}

pub(crate) fn keeps_structures(code: &[u32], arities: &[u8]) -> bool
    ensures { result ≡ v4 arities.now (map decode code.now) }
{
    code.iter()
        .try_fold(NOTHING, |state, w| state.step(decoded(*w), arities))
        .is_some_and(|state| state.is_nothing())
}
