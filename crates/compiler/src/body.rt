// The words that put a clause's goals.
ghost use Rattle.std.specs.Prelude.{◌≡◌, ◌+◌, ◌-◌, ◌<◌, ◌≤◌, length};
ghost use Rattle.symbol_table.specs.Symbols.{arity_at};
ghost use Rattle.symbol_table.specs.Tables.{signature};
ghost use Rattle.compiler.specs.Places.{Run, gain, before};
ghost use Rattle.compiler.specs.Filling.{Ahead};
ghost use Rattle.compiler.specs.Emits.{Struck};
ghost use Rattle.compiler.specs.Scripts.{goal};
ghost use Rattle.compiler.specs.Steps.{Goal};
ghost use Rattle.compiler.specs.Tables.{laid, Ready};

use crate::draft::{DRAFT_LIMIT, Draft};
use crate::flat::Flat;
use crate::items::Item;
use code::Instruction;

impl Flat<'_> {
    // Builds the structure at `i`, if there is one. Apart from `take_apart`, since here the slot is empty and is filled after the arguments, and
    // there it is filled and read before them.
    fn build(&self, draft: &mut Draft, i: usize)
        requires ready { Ready self.now (length draft.old.filled.items) }
        requires within { i < length self.now.places.now }
        requires empty { Ahead (laid self.now) draft.old.filled.items i (i + 1) }
        requires room { length draft.old.words.items + gain (laid self.now).sig ((laid self.now).tok i) ≤ DRAFT_LIMIT }
        ensures struck { Struck (laid self.now) goal i draft.old.words.items draft.new.words.items draft.old.filled.items draft.new.filled.items }
        ensures slots { length draft.new.filled.items ≡ length draft.old.filled.items }
    {
        let place = self.places[i];
        let Item::Structure(f) = place.item else {
            return;
        };
        draft.push(Instruction::PutStructure(place.slot, f));
        self.write_row(
            draft,
            |operand, _| Instruction::Set(operand),
            i + 1,
            self.symbols.arity(f),
        );
        draft.fill(place.slot);
    }

    // Adds the goal `p`, whose arguments stand from `from` up to `end`.
    pub(crate) fn add_goal(&self, draft: &mut Draft, p: u16, from: usize, end: usize)
        requires ready { Ready self.now (length draft.old.filled.items) }
        requires known { p < length (signature self.now.symbols.now) }
        requires within { from ≤ (laid self.now).size }
        requires ahead { Ahead (laid self.now) draft.old.filled.items from (laid self.now).size }
        requires run { Run (laid self.now).after (laid self.now).size (arity_at (laid self.now).sig p) from end }
        requires room { length draft.old.words.items + (end + before (laid self.now) end + 1 - (from + before (laid self.now) from)) ≤ DRAFT_LIMIT }
        ensures goal { Goal (laid self.now) p draft.old.words.items draft.new.words.items from end draft.old.filled.items draft.new.filled.items }
        ensures slots { length draft.new.filled.items ≡ length draft.old.filled.items }
    {
        // by number: a structure's arguments begin at the place after its own
        for i in (from..end).rev() {
            self.build(draft, i);
        }
        self.write_row(draft, Instruction::Put, from, self.symbols.arity(p));
        draft.push(Instruction::Call(p));
    }
}
