// The table of opcodes: what each one's operands are. Encoding, decoding and the rules all go by it.
ghost use Rattle.std.specs.Prelude.{◌≡◌};
ghost use Rattle.code.specs.Table.{found};

// What an operand is.
#[derive(Clone, Copy, PartialEq, Eq)]
pub enum Kind {
    // no operand: a kind and no Option, so that each match over kinds has an arm for it
    Nothing,
    // how many slots there are
    Slots,
    Slot,
    Argument,
    // a symbol of arity 0, one of arity 1 or more, or any
    Constant,
    Structure,
    Predicate,
}

// The operands of an opcode.
#[derive(Clone, Copy, PartialEq, Eq)]
pub struct Entry {
    pub first: Kind,
    pub second: Kind,
}

// From opcode 1 on.
pub const OPCODES: [Entry; 17] = [
    Entry {
        first: Kind::Slots,
        second: Kind::Nothing,
    },
    Entry {
        first: Kind::Slot,
        second: Kind::Argument,
    },
    Entry {
        first: Kind::Slot,
        second: Kind::Argument,
    },
    Entry {
        first: Kind::Argument,
        second: Kind::Constant,
    },
    Entry {
        first: Kind::Slot,
        second: Kind::Structure,
    },
    Entry {
        first: Kind::Slot,
        second: Kind::Nothing,
    },
    Entry {
        first: Kind::Slot,
        second: Kind::Nothing,
    },
    Entry {
        first: Kind::Nothing,
        second: Kind::Constant,
    },
    Entry {
        first: Kind::Slot,
        second: Kind::Argument,
    },
    Entry {
        first: Kind::Slot,
        second: Kind::Argument,
    },
    Entry {
        first: Kind::Argument,
        second: Kind::Constant,
    },
    Entry {
        first: Kind::Slot,
        second: Kind::Structure,
    },
    Entry {
        first: Kind::Slot,
        second: Kind::Nothing,
    },
    Entry {
        first: Kind::Slot,
        second: Kind::Nothing,
    },
    Entry {
        first: Kind::Nothing,
        second: Kind::Constant,
    },
    Entry {
        first: Kind::Nothing,
        second: Kind::Predicate,
    },
    Entry {
        first: Kind::Nothing,
        second: Kind::Nothing,
    },
];

// The entry of an opcode, if it is one.
pub fn look_up(opcode: usize) -> Option<Entry>
    ensures { result ≡ found opcode }
{
    match opcode {
        1..=17 => Some(OPCODES[opcode - 1]),
        _ => None,
    }
}
