// Marks on cells: a cell is marked when it has the last stamp, so that a new stamp takes all marks away.
ghost use Rattle.std.specs.Prelude.{◌≡◌, ◌<◌, true, false, length, replicate, slice_index_or, slice_set};
ghost use Rattle.heap.specs.Limits.{cell_limit};

use crate::cell::CELL_LIMIT;
use std::marker::Model;

#[derive(Drop)]
pub struct Marks {
    stamps: [u32; CELL_LIMIT],
    last: u32,
}

impl Model for Marks {
    ghost use Rattle.std.specs.Prelude.{◌≡◌, ℕ, ◌≤◌, Bool, List, length, slice_index};
    ghost use Rattle.heap.specs.Limits.{cell_limit};
    ghost use Rattle.heap.specs.Marks.{marked};

    ghost Value = { List Bool };

    ghost view = { λ m. marked m.stamps m.last };

    ghost invariant = { λ m. (length m.stamps ≡ cell_limit) × ((i : ℕ) → slice_index m.stamps i ≤ m.last) };
}

impl Marks {
    // No cell is marked.
    pub fn new() -> Marks
        ensures { result ≡ replicate cell_limit false }
    {
        Marks {
            stamps: [0; CELL_LIMIT],
            last: 1,
        }
    }

    // Takes all marks away. The stamps are cleared only where they have run out.
    pub fn clear(&mut self)
        ensures { self.new ≡ replicate cell_limit false }
    {
        if self.last == u32::MAX {
            *self = Marks::new();
            return;
        }
        self.last += 1;
    }

    pub fn has(&self, i: u16) -> bool
        requires { i < cell_limit }
        ensures value { result ≡ slice_index_or self.now i false }
        ensures long { length self.now ≡ cell_limit }
    {
        self.stamps[i as usize] == self.last
    }

    pub fn put(&mut self, i: u16)
        requires { i < cell_limit }
        ensures marks { self.new ≡ slice_set self.old i true }
        ensures long { length self.new ≡ cell_limit }
    {
        self.stamps[i as usize] = self.last;
    }
}
