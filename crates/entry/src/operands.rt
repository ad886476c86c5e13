// A cell for an operand, and a cell that is made equal to one. A slot that has no cell takes the first that it is used with.
// `Inside` is of the slots and the store together. A struct that borrowed the store beside them would say in each method that it borrows the same one.
ghost use Rattle.std.specs.Prelude.{◌≡◌, ℕ, ◌+◌, ◌<◌, ◌≤◌, List, [], ◌∷◌, ◌++◌, length, set, Some, None, MatchBool, is_ok, slice_index, slice_index_or};
ghost use Rattle.heap.specs.Limits.{cell_limit};
ghost use Rattle.heap.specs.declared.cell.Cell.TheVariants.{Node};
ghost use Rattle.cells.specs.Growth.{Grew};
ghost use Rattle.cells.specs.Stores.{cells_of, bound_of};
ghost use Rattle.code.specs.Words.{decode as decoded};
ghost use Rattle.code.specs.declared.instructions.Operand.TheVariants.{Known, Constant};
ghost use Rattle.entering.specs.Ready.{operand_of};
ghost use Rattle.entering.specs.Turns.{Slots, Inside, Turns, Fails, Takes, Taken, Is, slot_cell, slot_set, celled, slotted};

use cells::Store;
use code::{Instruction, Operand, decode};
use heap::Cell;
use matching::Unlike;

// The operand of a unify or a set instruction; what it is of others does not matter, since the code is ready.
pub(crate) fn operand_of(word: u32) -> Operand
    ensures { result ≡ operand_of (decoded word) }
{
    match decode(word) {
        Instruction::Unify(o) | Instruction::Set(o) => o,
        _ => Operand::Constant(0),
    }
}

// Makes a cell for the slot `y`, which takes it where it has none.
pub fn make_slot(store: &mut Store, slots: &mut [Option<u16>], y: usize)
    requires y_within { y < length slots.old }
    requires inside { Inside slots.old (cells_of store.old) }
    requires room { length (cells_of store.old) < cell_limit }
    ensures cells { cells_of store.new ≡ cells_of store.old ++ slot_cell (slice_index_or slots.old y None) ∷ [] }
    ensures slots { slots.new ≡ slot_set (slice_index_or slots.old y None) slots.old y (length (cells_of store.old)) }
    ensures trail { bound_of store.new ≡ bound_of store.old }
{
    if let Some(i) = slots[y] {
        store.push_ref(i);
    } else {
        slots[y] = store.push_unbound();
    }
}

// Makes a cell for the constant `c`.
pub fn make_constant(store: &mut Store, c: u16)
    requires room { length (cells_of store.old) < cell_limit }
    ensures cells { cells_of store.new ≡ cells_of store.old ++ Node c 0 0 ∷ [] }
    ensures trail { bound_of store.new ≡ bound_of store.old }
{
    store.push_node(c, 0, 0);
}

// Makes a cell for an operand.
pub(crate) fn make(store: &mut Store, slots: &mut [Option<u16>], o: Operand)
    requires taken { Taken (length slots.old) o }
    requires inside { Inside slots.old (cells_of store.old) }
    requires room { length (cells_of store.old) < cell_limit }
    ensures cells { cells_of store.new ≡ cells_of store.old ++ celled slots.old o ∷ [] }
    ensures slots { slots.new ≡ slotted slots.old o (length (cells_of store.old)) }
    ensures trail { bound_of store.new ≡ bound_of store.old }
{
    match o {
        Operand::Fresh(y) | Operand::Known(y) => make_slot(store, slots, y as usize),
        Operand::Constant(c) => make_constant(store, c),
    }
}

// Equates the cell `i` with a slot.
pub(crate) fn get_slot(
    store: &mut Store,
    slots: &mut [Option<u16>],
    y: usize,
    i: u16,
) -> Result<(), Unlike>
    requires within { i < length (cells_of store.old) }
    requires y_within { y < length slots.old }
    requires inside { Inside slots.old (cells_of store.old) }
    ensures grew { Grew (cells_of store.old) (bound_of store.old) (cells_of store.new) (bound_of store.new) }
    ensures long { length (cells_of store.new) ≡ length (cells_of store.old) }
    ensures inside { Inside slots.new (cells_of store.new) }
    ensures result { MatchBool (is_ok result) (Turns (cells_of store.old) slots.old (λ table. Unit {0}) (Is (Known y) i) (Is (Known y) i) (cells_of store.new) slots.new) (Fails (cells_of store.old) slots.old (λ table. Unit {0}) (Is (Known y) i)) }
{
    if let Some(j) = slots[y] {
        return store.unify(i, j);
    }
    slots[y] = Some(i);
    Ok(())
}

// Equates the cell `i` with a constant. A cell is made for it only where `i` is unbound.
fn get_constant(store: &mut Store, c: u16, i: u16) -> Result<(), Unlike>
    requires within { i < length (cells_of store.old) }
    requires room { length (cells_of store.old) < cell_limit }
    ensures grew { Grew (cells_of store.old) (bound_of store.old) (cells_of store.new) (bound_of store.new) }
    ensures long { length (cells_of store.new) ≤ length (cells_of store.old) + 1 }
    ensures result { (S : Slots) → MatchBool (is_ok result) (Turns (cells_of store.old) S (λ table. Takes table (length S) (Constant c)) (Is (Constant c) i) (Is (Constant c) i) (cells_of store.new) S) (Fails (cells_of store.old) S (λ table. Takes table (length S) (Constant c)) (Is (Constant c) i)) }
{
    if let Cell::Node { symbol, arity, .. } = store.get(store.root(i)) {
        return if symbol == c && arity == 0 {
            Ok(())
        } else {
            Err(Unlike)
        };
    }
    let j = store.top();
    make_constant(store, c);
    store.unify(i, j)
}

// Equates the cell `i` with what the operand names.
pub(crate) fn get(
    store: &mut Store,
    slots: &mut [Option<u16>],
    o: Operand,
    i: u16,
) -> Result<(), Unlike>
    requires within { i < length (cells_of store.old) }
    requires taken { Taken (length slots.old) o }
    requires inside { Inside slots.old (cells_of store.old) }
    requires room { length (cells_of store.old) < cell_limit }
    ensures grew { Grew (cells_of store.old) (bound_of store.old) (cells_of store.new) (bound_of store.new) }
    ensures long { length (cells_of store.new) ≤ length (cells_of store.old) + 1 }
    ensures inside { Inside slots.new (cells_of store.new) }
    ensures result { MatchBool (is_ok result) (Turns (cells_of store.old) slots.old (λ table. Takes table (length slots.old) o) (Is o i) (Is o i) (cells_of store.new) slots.new) (Fails (cells_of store.old) slots.old (λ table. Takes table (length slots.old) o) (Is o i)) }
{
    match o {
        Operand::Fresh(y) | Operand::Known(y) => get_slot(store, slots, y as usize, i),
        Operand::Constant(c) => get_constant(store, c, i),
    }
}
