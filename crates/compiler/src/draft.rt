// A clause's code as it is written.
ghost use Rattle.std.specs.Prelude.{◌≡◌, ◌+◌, ◌<◌, ◌≤◌, true, false, [], ◌∷◌, ◌++◌, length, replicate, slice_set};
ghost use Rattle.code.specs.Words.{encode as encoded, decode as decoded};
ghost use Rattle.compiler.specs.Emits.{Picked};

use arrayvec::ArrayVec;
use code::{Instruction, Operand, SLOT_LIMIT, WORD_LIMIT, encode};

// The words of a clause's code, at most, with allocate and proceed.
pub(crate) const DRAFT_LIMIT: usize = WORD_LIMIT + 2;

// The words so far, and which slots they fill.
#[derive(Drop)]
pub(crate) struct Draft {
    pub(crate) words: ArrayVec<u32, DRAFT_LIMIT>,
    pub(crate) filled: ArrayVec<bool, SLOT_LIMIT>,
}

impl Draft {
    // No words yet, and so many slots, all empty.
    pub(crate) fn new(slots: u8) -> Draft
        requires { slots ≤ SLOT_LIMIT }
        ensures words { result.words.items ≡ [] }
        ensures filled { result.filled.items ≡ replicate slots false }
    {
        let mut filled = ArrayVec::from([false; SLOT_LIMIT]);
        filled.truncate(slots as usize);
        Draft {
            words: ArrayVec::new(),
            filled,
        }
    }

    // Adds the word of an instruction.
    pub(crate) fn push(&mut self, instruction: Instruction)
        requires { length self.old.words.items < DRAFT_LIMIT }
        ensures words { self.new.words.items ≡ self.old.words.items ++ encoded instruction ∷ [] }
        ensures len { length self.new.words.items ≡ length self.old.words.items + 1 }
        ensures exact { decoded (encoded instruction) ≡ instruction }
        ensures filled { self.new.filled.items ≡ self.old.filled.items }
    {
        self.words.push(encode(instruction));
    }

    // Fills a slot.
    pub(crate) fn fill(&mut self, y: u8)
        requires { y < length self.old.filled.items }
        ensures filled { self.new.filled.items ≡ slice_set self.old.filled.items y true }
        ensures words { self.new.words.items ≡ self.old.words.items }
    {
        self.filled[y as usize] = true;
    }

    // A slot, as the next instruction has it: the first one fills it.
    pub(crate) fn slot(&mut self, y: u8) -> Operand
        requires { y < length self.old.filled.items }
        ensures picked { Picked y result self.old.filled.items self.new.filled.items }
        ensures words { self.new.words.items ≡ self.old.words.items }
    {
        if self.filled[y as usize] {
            return Operand::Known(y);
        }
        self.fill(y);
        Operand::Fresh(y)
    }
}
