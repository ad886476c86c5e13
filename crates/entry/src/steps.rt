// The instructions of a clause.
ghost use Rattle.std.specs.Prelude.{◌≡◌, ℕ, ◌+◌, ◌<◌, ◌≤◌, List, [], ◌∷◌, map, length, IfOk, MatchResult};
ghost use Rattle.heap.specs.Limits.{cell_limit};
ghost use Rattle.cells.specs.Growth.{Grew};
ghost use Rattle.cells.specs.Stores.{cells_of, bound_of};
ghost use Rattle.code.specs.Words.{decode};
ghost use Rattle.entering.specs.Turns.{Inside, Nothing, Turns, AllTake, AllTaken, Rows};
ghost use Rattle.entering.specs.States.{Going, Stuck};
ghost use Rattle.entry.specs.Operands.{put_at};
ghost use Rattle.entry.specs.Runs.{Blank, setting_of, state_of, Reached};

use crate::operands::{get, make};
use crate::structures::structure;
use arrayvec::ArrayVec;
use cells::Store;
use code::{ARGUMENT_LIMIT, CALL_LIMIT, Instruction, Operand, SLOT_LIMIT, arity_at};
use entering::Goal;
use matching::Unlike;

// Argument `a` is put at `a`.
const PUT_LIMIT: usize = ARGUMENT_LIMIT + 1;

// What a clause's code works on: a cell for each slot that has one, the arguments put for the next goal, and the goals left so far.
#[derive(Drop)]
pub(crate) struct Registers {
    pub(crate) slots: [Option<u16>; SLOT_LIMIT],
    pub(crate) puts: [Operand; PUT_LIMIT],
    pub(crate) goals: ArrayVec<Goal, CALL_LIMIT>,
}

// Makes cells for the first `n` arguments that were put. By number, since the place of a cell tells which argument it is.
fn pass(store: &mut Store, slots: &mut [Option<u16>], puts: &[Operand], n: u16)
    requires within { n < length puts.now }
    requires taken { AllTaken (length slots.old) (put_at puts.now) n }
    requires inside { Inside slots.old (cells_of store.old) }
    requires room { length (cells_of store.old) + n ≤ cell_limit }
    ensures grew { Grew (cells_of store.old) (bound_of store.old) (cells_of store.new) (bound_of store.new) }
    ensures long { length (cells_of store.new) ≡ length (cells_of store.old) + n }
    ensures result { Turns (cells_of store.old) slots.old (AllTake (length slots.old) (put_at puts.now) n) Nothing (Rows (length (cells_of store.old)) (put_at puts.now) n) (cells_of store.new) slots.new }
{
    for k in 0..n {
        make(store, slots, puts[1 + k as usize]);
    }
}

impl Registers {
    pub(crate) fn new() -> Registers
        ensures { Blank result }
    {
        Registers {
            slots: [None; SLOT_LIMIT],
            puts: [Operand::Fresh(0); PUT_LIMIT],
            goals: ArrayVec::new(),
        }
    }

    // Does the instruction, with those of its arguments at the front of the rest, and answers the code that is left, or that two terms are unlike
    // where the clause does not fit.
    pub(crate) fn step<'a>(
        &mut self,
        store: &mut Store,
        table: &[u8],
        goal: Goal,
        instruction: Instruction,
        rest: &'a [u32],
    ) -> Result<&'a [u32], Unlike>
        requires { Going (setting_of table.now goal) (state_of (cells_of store.old) self.old (instruction ∷ map decode rest.now)) }
        ensures grew { Grew (cells_of store.old) (bound_of store.old) (cells_of store.new) (bound_of store.new) }
        ensures shorter { IfOk result (λ left. length left.now ≤ length rest.now) }
        ensures result { MatchResult result (λ left. Reached (setting_of table.now goal) (state_of (cells_of store.old) self.old (instruction ∷ map decode rest.now)) (state_of (cells_of store.new) self.new (map decode left.now))) (λ _. Stuck (setting_of table.now goal) (state_of (cells_of store.old) self.old (instruction ∷ map decode rest.now))) }
    {
        match instruction {
            Instruction::Get(o, a) => {
                get(store, &mut self.slots, o, goal.first + (a as u16 - 1))?;
                Ok(rest)
            }
            Instruction::GetStructure(y, f) | Instruction::PutStructure(y, f) => {
                let (words, left) = rest.split_at(arity_at(table, f as usize) as usize);
                structure(store, &mut self.slots, words, y as usize, f)?;
                Ok(left)
            }
            Instruction::Put(o, a) => {
                self.puts[a as usize] = o;
                Ok(rest)
            }
            Instruction::Call(p) => {
                let n = arity_at(table, p as usize) as u16;
                let first = store.top();
                pass(store, &mut self.slots, &self.puts, n);
                self.goals.push(Goal {
                    symbol: p,
                    arity: n,
                    first,
                });
                Ok(rest)
            }
            Instruction::Unify(_)
            | Instruction::Set(_)
            | Instruction::Allocate(_)
            | Instruction::Proceed => Ok(rest),
        }
    }
}
