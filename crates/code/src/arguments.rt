// Rule V6: each head argument is read once, and each argument of a call put once, and none beyond.
ghost use Rattle.std.specs.Prelude.{◌≡◌, ◌≤◌, true, [], map, nat_le, unwrap_or};
ghost use Rattle.code.specs.Limits.{argument_limit};
ghost use Rattle.code.specs.Tests.{every};
ghost use Rattle.code.specs.Instructions.{got, put};
ghost use Rattle.code.specs.Words.{decode};
ghost use Rattle.code.specs.Rules.{filled, calls, v6};
ghost use Rattle.code.specs.Passes.{note_arg, full, call_next};
ghost use Rattle.code.specs.Passes.{bump as bumped};

use crate::instructions::Instruction;
use crate::limits::ARGUMENT_LIMIT;
use crate::structures::arity_at;
use crate::words::decode as decoded;

// A place for none, and one for each argument.
const COUNT_LIMIT: usize = ARGUMENT_LIMIT + 1;

// How often each argument was met.
type Counts = [u8; COUNT_LIMIT];

// How often an argument was met is counted up to two.
fn bump(c: u8) -> u8
    ensures { result ≡ bumped c }
{
    if c < 2 { c + 1 } else { c }
}

// Counts the argument; what is counted of 0, or of none, does not matter.
fn note(counts: &mut Counts, argument: Option<u8>)
    requires { unwrap_or argument 0 ≤ argument_limit }
    ensures { counts.new ≡ note_arg counts.old (unwrap_or argument 0) }
{
    let count = &mut counts[argument.unwrap_or(0) as usize];
    *count = bump(*count);
}

// Whether the arguments 1 to m, and none beyond, were met once. By their numbers, from 1.
fn is_full(counts: &Counts, m: usize) -> bool
    ensures { result ≡ full m counts.now }
{
    m <= ARGUMENT_LIMIT && (0..ARGUMENT_LIMIT).all(|a| counts[a + 1] == u8::from(a < m))
}

// The arguments 1 to m, and none beyond, are each read once.
fn reads_head(code: &[u32], m: usize) -> bool
    requires { every (λ w. nat_le (got w) argument_limit) (map decode code.now) ≡ true }
    ensures { result ≡ filled got m (map decode code.now) }
{
    let mut counts = [0; COUNT_LIMIT];
    for w in code {
        note(&mut counts, decoded(*w).got());
    }
    is_full(&counts, m)
}

// The counts after an instruction: a call wants its arguments met, and begins anew.
fn count_word(mut counts: Counts, word: Instruction, arities: &[u8]) -> Option<Counts>
    requires { put word ≤ argument_limit }
    ensures { result ≡ call_next arities.now counts word }
{
    match word.called() {
        Some(p) if is_full(&counts, arity_at(arities, p as usize) as usize) => {
            Some([0; COUNT_LIMIT])
        }
        Some(_) => None,
        None => {
            note(&mut counts, word.put());
            Some(counts)
        }
    }
}

// Since the previous call, each argument of a call is put once, and none beyond.
fn fills_calls(code: &[u32], arities: &[u8]) -> bool
    requires { every (λ w. nat_le (put w) argument_limit) (map decode code.now) ≡ true }
    ensures { result ≡ calls arities.now [] (map decode code.now) }
{
    // A loop: what try_fold gives of an array is not seen through its closure.
    let mut counts = [0; COUNT_LIMIT];
    for w in code {
        let Some(next) = count_word(counts, decoded(*w), arities) else {
            return false;
        };
        counts = next;
    }
    true
}

// The head has m arguments.
pub(crate) fn keeps_arguments(code: &[u32], arities: &[u8], m: usize) -> bool
    requires got { every (λ w. nat_le (got w) argument_limit) (map decode code.now) ≡ true }
    requires put { every (λ w. nat_le (put w) argument_limit) (map decode code.now) ≡ true }
    ensures { result ≡ v6 m arities.now (map decode code.now) }
{
    reads_head(code, m) && fills_calls(code, arities)
}
