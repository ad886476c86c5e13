// The code of a clause: instructions, their words, and the rules that they keep.
#![tactic(auto)]

mod arguments;
mod frame;
mod instructions;
mod key;
mod limits;
mod mnemonics;
mod order;
mod ranges;
mod rules;
mod slots;
mod structures;
mod table;
mod words;

pub use instructions::{Instruction, Operand};
pub use key::key_of;
pub use limits::{ARGUMENT_LIMIT, CALL_LIMIT, CLAUSE_LIMIT, CODE_LIMIT, SLOT_LIMIT, WORD_LIMIT};
pub use ranges::opened_by;
pub use rules::{Rule, broken_rule};
pub use structures::arity_at;
pub use table::{Entry, Kind, OPCODES, look_up};
pub use words::{decode, encode, first_of, opcode_of, second_of};
