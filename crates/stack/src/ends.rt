// The stack's end: pushing and popping.
ghost use Rattle.std.specs.Prelude.{◌≡◌, ◌+◌, [], ◌∷◌, ◌++◌, length, is_ok, MatchOption, OnErr, OnOk, nat_lt};
ghost use Rattle.stack.specs.Stacked.{stacked};

use crate::stack::Stack;
use arrayvec::CapacityError;

impl<'a, T: Copy> Stack<'a, T> {
    // An empty stack, with room for as many entries as the slice has items.
    pub fn over(items: &'a mut [T]) -> Stack<'a, T>
        ensures empty { result.len ≡ 0 }
        ensures room { length result.items.now ≡ length items.old }
    {
        Stack { items, len: 0 }
    }

    // Adds an entry; refuses exactly where the stack is full, and then changes nothing.
    pub fn push(&mut self, x: T) -> Result<(), CapacityError>
        ensures value { is_ok result ≡ nat_lt self.old.len (length self.old.items.now) }
        ensures room { length self.new.items.now ≡ length self.old.items.now }
        ensures pushed { OnOk result ((self.new.len ≡ self.old.len + 1) × (stacked self.new ≡ stacked self.old ++ x ∷ [])) }
        ensures refused { OnErr result ((self.new.len ≡ self.old.len) × (self.new.items.now ≡ self.old.items.now)) }
    {
        let len = self.len;
        if len >= self.items.len() {
            return Err(CapacityError::new(()));
        }
        self.items[len] = x;
        self.len = len + 1;
        Ok(())
    }

    // Takes the last entry; its place is used again.
    pub fn pop(&mut self) -> Option<T>
        ensures same { self.new.items.now ≡ self.old.items.now }
        ensures cases { MatchOption result ((self.old.len ≡ 0) × (self.new.len ≡ 0)) (λ x. (self.new.len + 1 ≡ self.old.len) × (stacked self.old ≡ stacked self.new ++ x ∷ [])) }
    {
        let len = self.len.checked_sub(1)?;
        self.len = len;
        Some(self.items[len])
    }
}
