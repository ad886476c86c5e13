// The whole code of a clause.
ghost use Rattle.std.specs.Prelude.{◌≡◌, ℕ, ◌+◌, ◌<◌, ◌≤◌, length, slice_index};
ghost use Rattle.horn.specs.Terms.{count};
ghost use Rattle.symbol_table.specs.Symbols.{arity_at};
ghost use Rattle.symbol_table.specs.Tables.{signature};
ghost use Rattle.compiler.specs.Places.{before};
ghost use Rattle.compiler.specs.Reading.{reads, arities, weight, Whole};
ghost use Rattle.compiler.specs.Lines.{Known, Used, Numbered, variables};
ghost use Rattle.compiler.specs.Written.{Wrote};
ghost use Rattle.compiler.specs.Filling.{Ahead};
ghost use Rattle.compiler.specs.Steps.{Written};
ghost use Rattle.compiler.specs.Tables.{laid, items_of, Ready};

use crate::draft::{DRAFT_LIMIT, Draft};
use crate::flat::Flat;
use crate::items::Item;
use crate::places::{find_places, skip};
use crate::slots::number_slots;
use arrayvec::ArrayVec;
use code::{CALL_LIMIT, Instruction, WORD_LIMIT};
use symbol_table::SymbolTable;

impl Flat<'_> {
    // Adds the words between the first and the last, those of the head and of the goals.
    fn write_words(&self, draft: &mut Draft, head: u16, goals: &[u16])
        requires ready { Ready self.now (length draft.old.filled.items) }
        requires ahead { Ahead (laid self.now) draft.old.filled.items 0 (laid self.now).size }
        requires full { arity_at (signature self.now.symbols.now) head + arities (signature self.now.symbols.now) goals.now ≡ count (reads (signature self.now.symbols.now) (items_of self.now.places.now)) }
        requires known { (k : ℕ) → k < length goals.now → slice_index goals.now k < length (signature self.now.symbols.now) }
        requires room { length draft.old.words.items + (length goals.now + (laid self.now).size + before (laid self.now) (laid self.now).size) ≤ DRAFT_LIMIT }
        ensures written { Written (laid self.now) head goals.now draft.old.words.items draft.new.words.items draft.old.filled.items draft.new.filled.items }
        ensures slots { length draft.new.filled.items ≡ length draft.old.filled.items }
    {
        let mut end = skip(self.places, 0, self.symbols.arity(head));
        self.open_head(draft, head, end);
        for &p in goals {
            let from = end;
            end = skip(self.places, from, self.symbols.arity(p));
            self.add_goal(draft, p, from, end);
        }
    }
}

// The code of the clause with the head `head` and the goals `goals`, whose arguments the items spell in turn. Its variables have the numbers
// below `vars`. Four parameters and no struct: none of what is asked is said of one of them alone.
pub(crate) fn write_clause(
    symbols: &SymbolTable,
    vars: u8,
    head: u16,
    goals: &[u16],
    items: &[Item],
) -> ArrayVec<u32, DRAFT_LIMIT>
    requires whole { Whole (signature symbols.now) items.now }
    requires known { Known (signature symbols.now) items.now }
    requires numbered { Numbered vars items.now }
    requires used { Used vars items.now }
    requires varied { vars ≤ variables items.now }
    requires full { arity_at (signature symbols.now) head + arities (signature symbols.now) goals.now ≡ count (reads (signature symbols.now) items.now) }
    requires called { (k : ℕ) → k < length goals.now → slice_index goals.now k < length (signature symbols.now) }
    requires light { weight goals.now items.now ≤ WORD_LIMIT }
    requires few { length goals.now ≤ CALL_LIMIT }
    ensures { Wrote (signature symbols.now) head goals.now items.now result.items }
{
    let (mut places, slots) = number_slots(vars, items);
    find_places(symbols, &mut places);
    let flat = Flat {
        symbols,
        places: &places,
    };
    let mut draft = Draft::new(slots);
    draft.push(Instruction::Allocate(slots));
    flat.write_words(&mut draft, head, goals);
    draft.push(Instruction::Proceed);
    draft.words
}
