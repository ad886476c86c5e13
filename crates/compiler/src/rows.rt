// Rows of instructions, one for each of some terms.
ghost use Rattle.std.specs.Prelude.{◌≡◌, ◌+◌, ◌<◌, ◌≤◌, length};
ghost use Rattle.compiler.specs.Terms.{hop};
ghost use Rattle.compiler.specs.Places.{Run};
ghost use Rattle.compiler.specs.Emits.{Chosen, Rowed};
ghost use Rattle.compiler.specs.Rows.{Role, Makes};
ghost use Rattle.compiler.specs.Tables.{laid, Ready};

use crate::draft::{DRAFT_LIMIT, Draft};
use crate::flat::Flat;
use crate::items::Item;
use code::{Instruction, Operand};

impl Flat<'_> {
    // What stands at `i`, as the next instruction has it.
    fn operand(&self, draft: &mut Draft, i: usize) -> Operand
        requires ready { Ready self.now (length draft.old.filled.items) }
        requires within { i < length self.now.places.now }
        ensures chosen { Chosen (laid self.now) i result draft.old.filled.items draft.new.filled.items }
        ensures words { draft.new.words.items ≡ draft.old.words.items }
    {
        let place = self.places[i];
        match place.item {
            Item::Atom(c) => Operand::Constant(c),
            Item::Structure(_) => draft.slot(place.slot),
            Item::Variable(v) => draft.slot(v),
        }
    }

    // Adds the instruction that `make` gives for each of the `n` terms from `from` on, the first being argument 1.
    pub(crate) fn write_row<F: Fn(Operand, u8) -> Instruction>(
        &self,
        draft: &mut Draft,
        make: F,
        from: usize,
        n: u8,
    )
        requires callable { F.IsAlwaysCallable make }
        requires ready { Ready self.now (length draft.old.filled.items) }
        requires run { Run (laid self.now).after (laid self.now).size n from (hop (laid self.now).after n from) }
        requires room { length draft.old.words.items + n ≤ DRAFT_LIMIT }
        ensures rowed { (role : Role) → Makes role (F.post make) → Rowed (laid self.now) role draft.old.words.items draft.new.words.items draft.old.filled.items draft.new.filled.items n from }
        ensures words { length draft.new.words.items ≡ length draft.old.words.items + n }
        ensures slots { length draft.new.filled.items ≡ length draft.old.filled.items }
    {
        let mut at = from;
        for k in 0..n {
            let operand = self.operand(draft, at);
            draft.push(make(operand, k + 1));
            at = self.places[at].after;
        }
    }
}
