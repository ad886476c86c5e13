// A query's words become cells, from the last to the first.
ghost use Rattle.std.specs.Prelude.{◌≡◌, ℕ, ◌+◌, ◌<◌, ◌≤◌, List, [], ◌∷◌, length, reverse, None, slice_index_or};
ghost use Rattle.std.specs.List.{AllByRecursion};
ghost use Rattle.arrayvec.specs.ArrayVec.{array_vec_len};
ghost use Rattle.horn.specs.Weights.{line_weight_limit};
ghost use Rattle.heap.specs.Limits.{cell_limit};
ghost use Rattle.cells.specs.Stores.{cells_of};
ghost use Rattle.entering.specs.Turns.{Stands};
ghost use Rattle.posing.specs.Queries.{Fit, FitOne, waits, asked, weighs};
ghost use Rattle.posing.specs.Stacks.{Sits};
ghost use Rattle.posing.specs.Starts.{from_top, no_goal, left_by, Builds, Started};

use crate::entries::{Entries, seat_all};
use crate::pieces::{Entry, Piece};
use arrayvec::ArrayVec;
use cells::Store;
use entering::Goal;

// Takes the arguments of a word from the entries, and adds its term to them; answers the goal where it is one.
fn start_piece(
    store: &mut Store,
    slots: &mut [Option<u16>],
    table: &[u8],
    entries: &mut Entries,
    piece: Piece,
) -> Option<Goal>
    requires stands { Stands table.now (cells_of store.old) slots.old }
    requires sits { AllByRecursion (Sits table.now (length slots.old) (length (cells_of store.old))) (reverse entries.old.items) }
    requires fit { FitOne table.now (length slots.old) (array_vec_len entries.old) piece }
    requires few { array_vec_len entries.old + weighs (piece ∷ []) ≤ line_weight_limit }
    requires room { length (cells_of store.old) + array_vec_len entries.old < cell_limit }
    ensures { (G : List Goal) → Builds table.now piece (cells_of store.old) slots.old (reverse entries.old.items) G (cells_of store.new) slots.new (reverse entries.new.items) (left_by result G) }
{
    match piece {
        Piece::Constant(c) => entries.push(Entry::Constant(c)),
        Piece::Variable(y) => entries.push(Entry::Variable(y)),
        Piece::Structure(f, n) => {
            let first = seat_all(store, slots, table, entries, n);
            let place = store.top();
            store.push_node(f, n, first);
            entries.push(Entry::Cell(place));
        }
        Piece::Goal(p, n) => {
            let first = seat_all(store, slots, table, entries, n);
            return Some(Goal {
                symbol: p,
                arity: n,
                first,
            });
        }
    }
    None
}

// The cells of a query's words, with the slots of its variables: answers how many goals there are, the leftmost as the last. A query may have any
// number of goals, so the caller lends the room for them. The arities in `table` are named in the contract alone: no other argument has them.
pub fn start(
    store: &mut Store,
    slots: &mut [Option<u16>],
    table: &[u8],
    goals: &mut [Goal],
    pieces: &[Piece],
) -> usize
    requires store { cells_of store.old ≡ [] }
    requires slots { (y : ℕ) → slice_index_or slots.old y None ≡ None }
    requires fit { Fit table.now (length slots.old) pieces.now }
    requires whole { waits pieces.now ≡ 0 }
    requires light { weighs pieces.now ≤ line_weight_limit }
    requires goals { asked pieces.now ≤ length goals.old }
    ensures value { result ≡ asked pieces.now }
    ensures started { Started table.now pieces.now (cells_of store.new) slots.new (from_top no_goal goals.new result) }
{
    let mut entries = ArrayVec::new();
    let mut count = 0;
    for piece in pieces.iter().rev() {
        if let Some(goal) = start_piece(store, slots, table, &mut entries, *piece) {
            goals[count] = goal;
            count += 1;
        }
    }
    count
}
