// Rule V3: opcodes 2 to 8 stand before 9 to 16, and every 9 to 15 has a call somewhere after it.
ghost use Rattle.std.specs.Prelude.{◌≡◌, map};
ghost use Rattle.code.specs.Words.{decode};
ghost use Rattle.code.specs.Rules.{v3};
ghost use Rattle.code.specs.Passes.{owing, order_step};

use crate::instructions::Instruction;
use crate::words::decode as decoded;

// Where a pass over the words is: before the first of 9 to 16, after one of 9 to 15 that still wants a call, or after a call.
#[derive(Clone, Copy, PartialEq, Eq)]
pub(crate) enum Order {
    Head,
    Owing,
    Called,
}

impl Order {
    fn is_owing(self) -> bool
        ensures { result ≡ owing self }
    {
        self == Order::Owing
    }

    // The state after one more instruction, unless it is out of place.
    fn step(self, word: Instruction) -> Option<Order>
        ensures { result ≡ order_step self word }
    {
        if word.is_body() {
            Some(Order::Owing)
        } else if word.is_call() {
            Some(Order::Called)
        } else if word.is_head() && self != Order::Head {
            None
        } else {
            Some(self)
        }
    }
}

pub(crate) fn keeps_order(code: &[u32]) -> bool
    ensures { result ≡ v3 (map decode code.now) }
{
    code.iter()
        .try_fold(Order::Head, |state, w| state.step(decoded(*w)))
        .is_some_and(|state| !state.is_owing())
}
