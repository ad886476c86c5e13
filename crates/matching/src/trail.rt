// The trail: the cells that were bound, with what they held before.
ghost use Rattle.std.specs.Prelude.{◌≡◌, ◌+◌, ◌<◌, ◌≤◌, [], ◌∷◌, ◌++◌, length};
ghost use Rattle.heap.specs.Limits.{cell_limit};

use heap::{CELL_LIMIT, Cell};
use std::marker::Model;

// A cell that was bound, and what it held before.
#[derive(Clone, Copy, Default)]
pub struct Bound {
    pub at: u16,
    pub was: Cell,
}

// The entries are the first `len` of the items: an entry that is given up is not written over.
#[derive(Drop)]
pub struct Trail {
    items: [Bound; CELL_LIMIT],
    len: usize,
}

impl Model for Trail {
    ghost use Rattle.std.specs.Prelude.{◌≡◌, ◌≤◌, List, length, take};
    ghost use Rattle.heap.specs.Limits.{cell_limit};
    ghost use Rattle.matching.specs.declared.trail.Bound.{Bound};

    ghost Value = { List Bound };

    ghost view = { λ t. take t.len t.items };

    ghost invariant = { λ t. (length t.items ≡ cell_limit) × (t.len ≤ cell_limit) };
}

impl Trail {
    pub fn new() -> Trail
        ensures entries { result ≡ [] }
        ensures within { length result ≤ cell_limit }
    {
        Trail {
            items: [Bound {
                at: 0,
                was: Cell::Unbound,
            }; CELL_LIMIT],
            len: 0,
        }
    }

    // Forgets all entries.
    pub fn clear(&mut self)
        ensures entries { self.new ≡ [] }
        ensures within { length self.new ≤ cell_limit }
    {
        self.len = 0;
    }

    pub fn len(&self) -> usize
        ensures value { result ≡ length self.now }
        ensures within { result ≤ cell_limit }
    {
        self.len
    }

    pub fn push(&mut self, b: Bound)
        requires { length self.old < cell_limit }
        ensures entries { self.new ≡ self.old ++ b ∷ [] }
        ensures within { length self.new ≤ cell_limit }
    {
        let len = self.len;
        self.items[len] = b;
        self.len = len + 1;
    }

    pub fn pop(&mut self) -> Bound
        requires { 0 < length self.old }
        ensures len { length self.new + 1 ≡ length self.old }
        ensures entries { self.old ≡ self.new ++ result ∷ [] }
        ensures within { length self.old ≤ cell_limit }
    {
        let len = self.len - 1;
        self.len = len;
        self.items[len]
    }
}
