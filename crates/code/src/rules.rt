// The rules V1 to V7 of a clause's code, a pass for each. Code and arities stay two parameters: nothing is said of both together.
ghost use Rattle.std.specs.Prelude.{◌≡◌};
ghost use Rattle.code.specs.Rules.{broken, rule_number};

use crate::arguments::keeps_arguments;
use crate::frame::keeps_frame;
use crate::key::keeps_key;
use crate::order::keeps_order;
use crate::ranges::{keeps_ranges, opened_by};
use crate::slots::keeps_slots;
use crate::structures::{arity_at, keeps_structures};

// What the code of a clause must keep: V1 to V7.
#[derive(Clone, Copy, PartialEq, Eq)]
pub enum Rule {
    Ranges = 1,
    Frame,
    Order,
    Structures,
    Slots,
    Arguments,
    Key,
}

impl Rule {
    // 1 for V1, and so on.
    pub fn number(self) -> u8
        ensures { result ≡ rule_number self }
    {
        self as u8
    }
}

// The lowest rule that a clause's code breaks. An Option and no Result: the rule is what is asked for.
pub fn broken_rule(code: &[u32], arities: &[u8], predicate: usize, key: usize) -> Option<Rule>
    ensures { result ≡ broken arities.now predicate key code.now }
{
    if !keeps_ranges(code, arities) {
        return Some(Rule::Ranges);
    }
    if !keeps_frame(code) {
        return Some(Rule::Frame);
    }
    if !keeps_order(code) {
        return Some(Rule::Order);
    }
    if !keeps_structures(code, arities) {
        return Some(Rule::Structures);
    }
    if !keeps_slots(code, arities, opened_by(code)) {
        return Some(Rule::Slots);
    }
    if !keeps_arguments(code, arities, arity_at(arities, predicate) as usize) {
        return Some(Rule::Arguments);
    }
    if !keeps_key(code, key) {
        return Some(Rule::Key);
    }
    None
}
