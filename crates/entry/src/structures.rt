// Structures: read where one is there already, and else written, and only then bound.
// That the words' operands may be taken is said of the words and the slots together, and so stays a clause.
ghost use Rattle.std.specs.Prelude.{◌≡◌, ℕ, ◌+◌, ◌<◌, ◌≤◌, List, length, MatchBool, is_ok};
ghost use Rattle.heap.specs.Limits.{cell_limit};
ghost use Rattle.cells.specs.Growth.{Spare, Grew};
ghost use Rattle.cells.specs.Stores.{cells_of, bound_of};
ghost use Rattle.entering.specs.Turns.{Inside, Nothing, Turns, Fails, AllTake, AllTaken, Rows, Structure, SlotIs, Built};
ghost use Rattle.entry.specs.Operands.{worded};

use crate::operands::{get, get_slot, make, operand_of};
use cells::Store;
use heap::Cell;
use matching::Unlike;

// Makes cells for the operands of the words.
fn build(store: &mut Store, slots: &mut [Option<u16>], words: &[u32])
    requires taken { AllTaken (length slots.old) (worded words.now) (length words.now) }
    requires inside { Inside slots.old (cells_of store.old) }
    requires room { length (cells_of store.old) + length words.now ≤ cell_limit }
    ensures grew { Grew (cells_of store.old) (bound_of store.old) (cells_of store.new) (bound_of store.new) }
    ensures long { length (cells_of store.new) ≡ length (cells_of store.old) + length words.now }
    ensures spare { Spare (cells_of store.new) (length words.now) }
    ensures inside { Inside slots.new (cells_of store.new) }
    ensures result { Turns (cells_of store.old) slots.old (AllTake (length slots.old) (worded words.now) (length words.now)) Nothing (Rows (length (cells_of store.old)) (worded words.now) (length words.now)) (cells_of store.new) slots.new }
{
    for word in words {
        make(store, slots, operand_of(*word));
    }
}

// Makes the structure whose arguments are the operands of the words, and answers its place.
fn write(store: &mut Store, slots: &mut [Option<u16>], words: &[u32], symbol: u16) -> u16
    requires taken { AllTaken (length slots.old) (worded words.now) (length words.now) }
    requires inside { Inside slots.old (cells_of store.old) }
    requires room { length (cells_of store.old) + length words.now < cell_limit }
    ensures grew { Grew (cells_of store.old) (bound_of store.old) (cells_of store.new) (bound_of store.new) }
    ensures long { length (cells_of store.new) ≡ length (cells_of store.old) + 1 + length words.now }
    ensures place { result < length (cells_of store.new) }
    ensures inside { Inside slots.new (cells_of store.new) }
    ensures result { Turns (cells_of store.old) slots.old (Built (length slots.old) symbol (worded words.now) (length words.now)) Nothing (Structure symbol (worded words.now) (length words.now) result) (cells_of store.new) slots.new }
{
    let first = store.top();
    build(store, slots, words);
    let place = store.top();
    store.push_node(symbol, words.len() as u16, first);
    place
}

// Equates the cells from `first` on with the operands of the words.
fn read(
    store: &mut Store,
    slots: &mut [Option<u16>],
    words: &[u32],
    first: u16,
) -> Result<(), Unlike>
    requires taken { AllTaken (length slots.old) (worded words.now) (length words.now) }
    requires inside { Inside slots.old (cells_of store.old) }
    requires cells { (j : ℕ) → j < length words.now → first + j < length (cells_of store.old) }
    requires room { length (cells_of store.old) + length words.now ≤ cell_limit }
    ensures grew { Grew (cells_of store.old) (bound_of store.old) (cells_of store.new) (bound_of store.new) }
    ensures long { length (cells_of store.new) ≤ length (cells_of store.old) + length words.now }
    ensures inside { Inside slots.new (cells_of store.new) }
    ensures result { MatchBool (is_ok result) (Turns (cells_of store.old) slots.old (AllTake (length slots.old) (worded words.now) (length words.now)) (Rows first (worded words.now) (length words.now)) (Rows first (worded words.now) (length words.now)) (cells_of store.new) slots.new) (Fails (cells_of store.old) slots.old (AllTake (length slots.old) (worded words.now) (length words.now)) (Rows first (worded words.now) (length words.now))) }
{
    for (k, word) in words.iter().enumerate() {
        get(store, slots, operand_of(*word), first + k as u16)?;
    }
    Ok(())
}

// Equates a slot with the structure whose arguments are the operands of the words.
pub(crate) fn structure(
    store: &mut Store,
    slots: &mut [Option<u16>],
    words: &[u32],
    y: usize,
    symbol: u16,
) -> Result<(), Unlike>
    requires taken { AllTaken (length slots.old) (worded words.now) (length words.now) }
    requires y_within { y < length slots.old }
    requires inside { Inside slots.old (cells_of store.old) }
    requires room { length (cells_of store.old) + length words.now < cell_limit }
    ensures grew { Grew (cells_of store.old) (bound_of store.old) (cells_of store.new) (bound_of store.new) }
    ensures long { length (cells_of store.new) ≤ length (cells_of store.old) + 1 + length words.now }
    ensures inside { Inside slots.new (cells_of store.new) }
    ensures result { MatchBool (is_ok result) (Turns (cells_of store.old) slots.old (Built (length slots.old) symbol (worded words.now) (length words.now)) (SlotIs y symbol (worded words.now) (length words.now)) (SlotIs y symbol (worded words.now) (length words.now)) (cells_of store.new) slots.new) (Fails (cells_of store.old) slots.old (Built (length slots.old) symbol (worded words.now) (length words.now)) (SlotIs y symbol (worded words.now) (length words.now))) }
{
    if let Some(i) = slots[y] {
        if let Cell::Node {
            symbol: f,
            arity,
            first,
        } = store.get(store.root(i))
        {
            if f != symbol || arity as usize != words.len() {
                return Err(Unlike);
            }
            return read(store, slots, words, first);
        }
    }
    let place = write(store, slots, words, symbol);
    get_slot(store, slots, y, place)
}
