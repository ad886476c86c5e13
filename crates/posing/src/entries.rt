// Cells for the terms that wait.
ghost use Rattle.std.specs.Prelude.{◌≡◌, ℕ, ◌+◌, ◌<◌, ◌≤◌, List, [], ◌∷◌, ◌++◌, length, drop, reverse, slice_index_or};
ghost use Rattle.arrayvec.specs.ArrayVec.{array_vec_len};
ghost use Rattle.heap.specs.Limits.{cell_limit};
ghost use Rattle.cells.specs.Stores.{cells_of};
ghost use Rattle.entering.specs.Turns.{Inside, Stands};
ghost use Rattle.posing.specs.Stacks.{Sits, seated, seated_slots, entry_at, Seating};

use crate::pieces::Entry;
use arrayvec::ArrayVec;
use cells::Store;
use entry::{make_constant, make_slot};

// A query weighs no more, and each term that waits weighs one at least.
const ENTRY_LIMIT: usize = 128;

// The terms that wait, the last of them at the top.
pub(crate) type Entries = ArrayVec<Entry, ENTRY_LIMIT>;

// Makes a cell for an entry. Store and slots stay two parameters, as in `entry`; the table is named in contracts alone, as `start` says.
fn seat(store: &mut Store, slots: &mut [Option<u16>], table: &[u8], e: Entry)
    requires sits { Sits table.now (length slots.old) (length (cells_of store.old)) e }
    requires inside { Inside slots.old (cells_of store.old) }
    requires room { length (cells_of store.old) < cell_limit }
    ensures cells { cells_of store.new ≡ cells_of store.old ++ seated slots.old e ∷ [] }
    ensures slots { slots.new ≡ seated_slots slots.old e (length (cells_of store.old)) }
{
    match e {
        Entry::Constant(c) => make_constant(store, c),
        Entry::Variable(y) => make_slot(store, slots, y as usize),
        Entry::Cell(i) => {
            store.push_ref(i);
        }
    }
}

// Takes `n` entries from the top, and makes cells for them; answers the place of the first. By number, since the place of a cell tells which argument it is.
pub(crate) fn seat_all(
    store: &mut Store,
    slots: &mut [Option<u16>],
    table: &[u8],
    entries: &mut Entries,
    n: u16,
) -> u16
    requires enough { n ≤ array_vec_len entries.old }
    requires stands { Stands table.now (cells_of store.old) slots.old }
    requires sits { (j : ℕ) → j < n → Sits table.now (length slots.old) (length (cells_of store.old)) (entry_at (reverse entries.old.items) j) }
    requires room { length (cells_of store.old) + n ≤ cell_limit }
    ensures first { result ≡ length (cells_of store.old) }
    ensures entries { reverse entries.new.items ≡ drop n (reverse entries.old.items) }
    ensures seated { Seating table.now (cells_of store.old) slots.old (entry_at (reverse entries.old.items)) n (cells_of store.new) slots.new }
{
    let first = store.top();
    let count = entries.len();
    for k in 0..n {
        seat(store, slots, table, entries[count - 1 - k as usize]);
    }
    entries.truncate(count - n as usize);
    first
}
