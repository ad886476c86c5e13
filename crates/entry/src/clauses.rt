// Entering a clause.
// Store, table and goal stay three parameters: each caller has them of its own, the store to be changed, the table to be read and the goal to be copied.
ghost use Rattle.std.specs.Prelude.{◌≡◌, ℕ, ◌+◌, ◌≤◌, map, length, IfSome, IfNone, MatchOption};
ghost use Rattle.heap.specs.Limits.{cell_limit};
ghost use Rattle.cells.specs.Growth.{Grew};
ghost use Rattle.cells.specs.Stores.{cells_of, bound_of};
ghost use Rattle.code.specs.Meaning.{Symbols};
ghost use Rattle.code.specs.Words.{decode};
ghost use Rattle.entering.specs.Goals.{Names, Typed, Good};
ghost use Rattle.entering.specs.Entries.{Denied};
ghost use Rattle.entering.specs.Checks.{Runnable};
ghost use Rattle.entry.specs.Runs.{Leaves};

use crate::steps::Registers;
use arrayvec::ArrayVec;
use cells::Store;
use code::{CALL_LIMIT, decode};
use entering::Goal;

// Enters the clause of the code with a goal of its predicate. Where it fits, the store has the solutions of the goal and the clause, and the answer
// is the goals that the clause leaves; where it does not, `leave` takes the store back.
pub fn enter(
    store: &mut Store,
    table: &[u8],
    goal: Goal,
    code: &[u32],
) -> Option<ArrayVec<Goal, CALL_LIMIT>>
    requires clause { Runnable table.now goal.symbol code.now }
    requires goal { Good table.now (length (cells_of store.old)) goal }
    requires typed { Typed table.now (cells_of store.old) }
    requires room { length (cells_of store.old) + length code.now ≤ cell_limit + 2 }
    ensures grew { Grew (cells_of store.old) (bound_of store.old) (cells_of store.new) (bound_of store.new) }
    ensures result { MatchOption result ((s : Symbols) → Names s table.now → Denied s (cells_of store.old) goal (map decode code.now)) (λ goals. Leaves table.now (cells_of store.old) goal code.now (cells_of store.new) goals.items) }
    ensures few { IfSome result (λ goals. length (cells_of store.new) + 2 ≤ length (cells_of store.old) + length code.now) }
{
    let mut registers = Registers::new();
    let mut left = code;
    while let Some((word, rest)) = left.split_first() {
        left = registers
            .step(store, table, goal, decode(*word), rest)
            .ok()?;
    }
    Some(registers.goals)
}

// The same, but where the clause does not fit the store is as it was.
pub fn attempt(
    store: &mut Store,
    table: &[u8],
    goal: Goal,
    code: &[u32],
) -> Option<ArrayVec<Goal, CALL_LIMIT>>
    requires clause { Runnable table.now goal.symbol code.now }
    requires goal { Good table.now (length (cells_of store.old)) goal }
    requires typed { Typed table.now (cells_of store.old) }
    requires room { length (cells_of store.old) + length code.now ≤ cell_limit + 2 }
    ensures grew { Grew (cells_of store.old) (bound_of store.old) (cells_of store.new) (bound_of store.new) }
    ensures same { IfNone result ((cells_of store.new ≡ cells_of store.old) × (bound_of store.new ≡ bound_of store.old)) }
    ensures result { MatchOption result ((s : Symbols) → Names s table.now → Denied s (cells_of store.old) goal (map decode code.now)) (λ goals. Leaves table.now (cells_of store.old) goal code.now (cells_of store.new) goals.items) }
    ensures few { IfSome result (λ goals. length (cells_of store.new) + 2 ≤ length (cells_of store.old) + length code.now) }
{
    let mark = store.mark();
    let top = store.top();
    let goals = enter(store, table, goal, code);
    if goals.is_none() {
        store.leave(mark, top);
    }
    goals
}
