// The numbers of unbound variables, by first appearance.
ghost use Rattle.std.specs.Prelude.{◌≡◌, ℕ, suc, ◌<◌, ◌≤◌, List, [], None, nat_eq, slice_index_or};
ghost use Rattle.heap.specs.Limits.{cell_limit};
ghost use Rattle.horn.specs.Answers.{note, place};
ghost use Rattle.answers.specs.Numbering.{Numbered, Without, marked};

use heap::CELL_LIMIT;

// The numbers, from 1, of the variables that have appeared, each at its cell.
#[derive(Drop)]
pub struct Numbering {
    pub(crate) numbers: [Option<u16>; CELL_LIMIT],
    // how many have appeared
    pub(crate) seen: u16,
    ghost tally: { seen ≡ marked numbers },
}

impl Numbering {
    pub fn new() -> Numbering
        ensures { Numbered [] result.numbers result.seen }
    {
        Numbering {
            numbers: [None; CELL_LIMIT],
            seen: 0,
        }
    }

    // The number of the variable `v`, the next one where it has none yet.
    pub fn number(&mut self, v: u16) -> u16
        requires { v < cell_limit }
        ensures { (us : List ℕ) → Numbered us self.old.numbers self.old.seen → Numbered (note nat_eq v us) self.new.numbers self.new.seen × (result ≡ suc (place nat_eq v us)) }
    {
        if let Some(known) = self.numbers[v as usize] {
            return known;
        }
        let next = self.seen + 1;
        self.seen = next;
        self.numbers[v as usize] = Some(next);
        next
    }

    // Takes the numbers of the first `cells` cells away.
    pub fn forget(&mut self, cells: u16)
        ensures without { Without cells self.old.numbers self.new.numbers }
        ensures left { self.new.seen ≡ marked self.new.numbers }
        ensures all { ((v : ℕ) → cells ≤ v → slice_index_or self.old.numbers v None ≡ None) → Numbered [] self.new.numbers self.new.seen }
    {
        for v in 0..CELL_LIMIT.min(cells as usize) {
            if self.numbers[v].is_some() {
                self.numbers[v] = None;
                self.seen -= 1;
            }
        }
    }
}
