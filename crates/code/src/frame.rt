// Rule V2: allocate is the first word only and proceed the last only, with few words and calls between.
ghost use Rattle.std.specs.Prelude.{◌≡◌, map};
ghost use Rattle.code.specs.Tests.{every, total};
ghost use Rattle.code.specs.Instructions.{within};
ghost use Rattle.code.specs.Words.{decode};
ghost use Rattle.code.specs.Rules.{closes, v2};

use crate::limits::{CALL_LIMIT, WORD_LIMIT};
use crate::words::decode as decoded;

fn all_inner(code: &[u32]) -> bool
    ensures { result ≡ every (λ w. within 2 16 (decode w)) code.now }
{
    code.iter().all(|w| decoded(*w).is_inner())
}

// Whether proceed is the last word and neither it nor allocate stands before.
fn ends_well(code: &[u32]) -> bool
    ensures { result ≡ closes (map decode code.now) }
{
    let [inner @ .., last] = code else {
        return false;
    };
    all_inner(inner) && decoded(*last).is_proceed()
}

fn count_calls(code: &[u32]) -> usize
    ensures { result ≡ total (within 16 16) (map decode code.now) }
{
    code.iter().filter(|w| decoded(**w).is_call()).count()
}

pub(crate) fn keeps_frame(code: &[u32]) -> bool
    ensures { result ≡ v2 (map decode code.now) }
{
    let [first, rest @ ..] = code else {
        return false;
    };
    decoded(*first).is_allocate()
        && ends_well(rest)
        && rest.len() <= WORD_LIMIT + 1
        && count_calls(rest) <= CALL_LIMIT
}
