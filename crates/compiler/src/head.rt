// The words that take a clause's head apart.
ghost use Rattle.std.specs.Prelude.{◌≡◌, ◌+◌, ◌<◌, ◌≤◌, length};
ghost use Rattle.symbol_table.specs.Symbols.{arity_at};
ghost use Rattle.compiler.specs.Places.{Run, gain, before};
ghost use Rattle.compiler.specs.Filling.{MarkedAt, Ahead};
ghost use Rattle.compiler.specs.Emits.{Struck};
ghost use Rattle.compiler.specs.Scripts.{inside};
ghost use Rattle.compiler.specs.Steps.{Opened};
ghost use Rattle.compiler.specs.Tables.{laid, Ready};

use crate::draft::{DRAFT_LIMIT, Draft};
use crate::flat::Flat;
use crate::items::Item;
use code::Instruction;

impl Flat<'_> {
    // Takes the structure at `i` apart, if there is one.
    fn take_apart(&self, draft: &mut Draft, i: usize)
        requires ready { Ready self.now (length draft.old.filled.items) }
        requires within { i < length self.now.places.now }
        requires marked { MarkedAt (laid self.now) draft.old.filled.items i }
        requires room { length draft.old.words.items + gain (laid self.now).sig ((laid self.now).tok i) ≤ DRAFT_LIMIT }
        ensures struck { Struck (laid self.now) inside i draft.old.words.items draft.new.words.items draft.old.filled.items draft.new.filled.items }
        ensures slots { length draft.new.filled.items ≡ length draft.old.filled.items }
    {
        let place = self.places[i];
        let Item::Structure(f) = place.item else {
            return;
        };
        draft.push(Instruction::GetStructure(place.slot, f));
        self.write_row(
            draft,
            |operand, _| Instruction::Unify(operand),
            i + 1,
            self.symbols.arity(f),
        );
    }

    // Takes the arguments of the head `p`, which stand up to `end`, apart.
    pub(crate) fn open_head(&self, draft: &mut Draft, p: u16, end: usize)
        requires ready { Ready self.now (length draft.old.filled.items) }
        requires ahead { Ahead (laid self.now) draft.old.filled.items 0 (laid self.now).size }
        requires run { Run (laid self.now).after (laid self.now).size (arity_at (laid self.now).sig p) 0 end }
        requires room { length draft.old.words.items + (end + before (laid self.now) end) ≤ DRAFT_LIMIT }
        ensures opened { Opened (laid self.now) p end draft.old.words.items draft.new.words.items draft.old.filled.items draft.new.filled.items }
        ensures slots { length draft.new.filled.items ≡ length draft.old.filled.items }
    {
        self.write_row(draft, Instruction::Get, 0, self.symbols.arity(p));
        // by number: a structure's arguments begin at the place after its own
        for i in 0..end {
            self.take_apart(draft, i);
        }
    }
}
