// Instructions: what a code word says.
ghost use Rattle.std.specs.Prelude.{◌≡◌, ◌≤◌, ◌==◌, unwrap_or};
ghost use Rattle.code.specs.Instructions.{form, number, within, fresh, known, sets, reads, got, put, called};

// A slot that is filled, a slot that is used, or a constant's symbol.
#[derive(Clone, Copy)]
pub enum Operand {
    Fresh(u8),
    Known(u8),
    Constant(u16),
}

// Slots and arguments are numbers of 8 bits, symbols of 16.
#[derive(Clone, Copy)]
pub enum Instruction {
    // opens so many slots
    Allocate(u8),
    // equates an argument with the operand
    Get(Operand, u8),
    // equates a slot with a structure of this symbol, whose arguments the unify instructions after it give in turn
    GetStructure(u8, u16),
    Unify(Operand),
    // fills an argument
    Put(Operand, u8),
    // fills a slot with a structure of this symbol, whose arguments the set instructions after it give in turn
    PutStructure(u8, u16),
    Set(Operand),
    // leaves a goal of this predicate, with the arguments that were put
    Call(u16),
    Proceed,
}

impl Operand {
    fn form(self) -> usize
        ensures value { result ≡ form self }
        ensures small { result ≤ 2 }
    {
        match self {
            Operand::Fresh(_) => 0,
            Operand::Known(_) => 1,
            Operand::Constant(_) => 2,
        }
    }

    // The slot that is filled.
    fn fresh(self) -> Option<u8>
        ensures { result ≡ fresh self }
    {
        match self {
            Operand::Fresh(y) => Some(y),
            _ => None,
        }
    }

    // The slot that is used.
    fn known(self) -> Option<u8>
        ensures { result ≡ known self }
    {
        match self {
            Operand::Known(y) => Some(y),
            _ => None,
        }
    }
}

impl Instruction {
    // The opcode.
    pub fn number(self) -> usize
        ensures value { result ≡ number self }
        ensures within { (1 ≤ result) × (result ≤ 17) }
    {
        match self {
            Instruction::Allocate(_) => 1,
            Instruction::Get(o, _) => 2 + o.form(),
            Instruction::GetStructure(_, _) => 5,
            Instruction::Unify(o) => 6 + o.form(),
            Instruction::Put(o, _) => 9 + o.form(),
            Instruction::PutStructure(_, _) => 12,
            Instruction::Set(o) => 13 + o.form(),
            Instruction::Call(_) => 16,
            Instruction::Proceed => 17,
        }
    }

    pub(crate) fn is_allocate(self) -> bool
        ensures { result ≡ (number self == 1) }
    {
        matches!(self, Instruction::Allocate(_))
    }

    // A get or unify instruction.
    pub(crate) fn is_head(self) -> bool
        ensures { result ≡ within 2 8 self }
    {
        matches!(
            self,
            Instruction::Get(..) | Instruction::GetStructure(..) | Instruction::Unify(_)
        )
    }

    // A put or set instruction.
    pub(crate) fn is_body(self) -> bool
        ensures { result ≡ within 9 15 self }
    {
        matches!(
            self,
            Instruction::Put(..) | Instruction::PutStructure(..) | Instruction::Set(_)
        )
    }

    pub(crate) fn is_unify(self) -> bool
        ensures { result ≡ within 6 8 self }
    {
        matches!(self, Instruction::Unify(_))
    }

    pub(crate) fn is_set(self) -> bool
        ensures { result ≡ within 13 15 self }
    {
        matches!(self, Instruction::Set(_))
    }

    pub(crate) fn is_call(self) -> bool
        ensures { result ≡ within 16 16 self }
    {
        matches!(self, Instruction::Call(_))
    }

    pub(crate) fn is_proceed(self) -> bool
        ensures { result ≡ (number self == 17) }
    {
        matches!(self, Instruction::Proceed)
    }

    // Neither allocate nor proceed.
    pub(crate) fn is_inner(self) -> bool
        ensures { result ≡ within 2 16 self }
    {
        !matches!(self, Instruction::Allocate(_) | Instruction::Proceed)
    }

    // The slot that is set.
    pub(crate) fn sets(self) -> Option<u8>
        ensures { result ≡ sets self }
    {
        match self {
            Instruction::Get(o, _)
            | Instruction::Unify(o)
            | Instruction::Put(o, _)
            | Instruction::Set(o) => o.fresh(),
            Instruction::PutStructure(y, _) => Some(y),
            _ => None,
        }
    }

    // The slot that is read.
    pub(crate) fn reads(self) -> Option<u8>
        ensures { result ≡ reads self }
    {
        match self {
            Instruction::Get(o, _)
            | Instruction::Unify(o)
            | Instruction::Put(o, _)
            | Instruction::Set(o) => o.known(),
            Instruction::GetStructure(y, _) => Some(y),
            _ => None,
        }
    }

    // The argument that is read.
    pub(crate) fn got(self) -> Option<u8>
        ensures { unwrap_or result 0 ≡ got self }
    {
        match self {
            Instruction::Get(_, a) => Some(a),
            _ => None,
        }
    }

    // The argument that is put.
    pub(crate) fn put(self) -> Option<u8>
        ensures { unwrap_or result 0 ≡ put self }
    {
        match self {
            Instruction::Put(_, a) => Some(a),
            _ => None,
        }
    }

    // The predicate that is called.
    pub(crate) fn called(self) -> Option<u16>
        ensures { result ≡ called self }
    {
        match self {
            Instruction::Call(p) => Some(p),
            _ => None,
        }
    }
}
