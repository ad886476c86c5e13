// The names of instructions.
ghost use Rattle.std.specs.Prelude.{◌≡◌};
ghost use Rattle.code.specs.Mnemonics.{mnemonic};

use crate::instructions::{Instruction, Operand};

impl Instruction {
    // A str and no Display: it is a name alone, and the contract says its bytes.
    pub fn mnemonic(self) -> &'static str
        ensures { result.now ≡ mnemonic self }
    {
        match self {
            Instruction::Allocate(_) => "allocate",
            Instruction::Get(Operand::Fresh(_), _) => "get_variable",
            Instruction::Get(Operand::Known(_), _) => "get_value",
            Instruction::Get(Operand::Constant(_), _) => "get_constant",
            Instruction::GetStructure(_, _) => "get_structure",
            Instruction::Unify(Operand::Fresh(_)) => "unify_variable",
            Instruction::Unify(Operand::Known(_)) => "unify_value",
            Instruction::Unify(Operand::Constant(_)) => "unify_constant",
            Instruction::Put(Operand::Fresh(_), _) => "put_variable",
            Instruction::Put(Operand::Known(_), _) => "put_value",
            Instruction::Put(Operand::Constant(_), _) => "put_constant",
            Instruction::PutStructure(_, _) => "put_structure",
            Instruction::Set(Operand::Fresh(_)) => "set_variable",
            Instruction::Set(Operand::Known(_)) => "set_value",
            Instruction::Set(Operand::Constant(_)) => "set_constant",
            Instruction::Call(_) => "call",
            Instruction::Proceed => "proceed",
        }
    }
}
