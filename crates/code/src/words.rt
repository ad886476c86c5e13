// Code words: an instruction as a number. The opcode is bits 24 to 31, the first operand 16 to 23, the second 0 to 15.
ghost use Rattle.std.specs.Prelude.{◌≡◌, ◌≤◌, true};
ghost use Rattle.code.specs.Words.{opcode, first, second, packed, operands_by, operands_of, Narrow, in_first, in_second, argument_by, is_instruction};
ghost use Rattle.code.specs.Words.{built, encode as encoded, decode as decoded};

use crate::instructions::{Instruction, Operand};
use crate::table::{Kind, OPCODES, look_up};

// The operands of an instruction; those that it does not have are 0.
#[derive(Clone, Copy)]
pub(crate) struct Operands {
    slot: u8,
    argument: u8,
    symbol: u16,
}

const NONE: Operands = Operands {
    slot: 0,
    argument: 0,
    symbol: 0,
};

// The opcode of a word, and its operands, by shifts and masks: a word's fields are 8, 8 and 16 bits.
pub fn opcode_of(word: u32) -> usize
    ensures { result ≡ opcode word }
{
    (word >> 24) as usize
}

pub fn first_of(word: u32) -> u8
    ensures { result ≡ first word }
{
    (word >> 16 & 0xff) as u8
}

pub fn second_of(word: u32) -> u16
    ensures { result ≡ second word }
{
    (word & 0xffff) as u16
}

fn pack(opcode: usize, first: u8, second: u16) -> u32
    requires { opcode ≤ 17 }
    ensures { result ≡ packed opcode first second }
{
    ((opcode as u32) << 24) + (u32::from(first) << 16) + u32::from(second)
}

fn operands_by(operand: Operand, argument: u8) -> Operands
    ensures value { result ≡ operands_by operand argument }
    ensures narrow { Narrow result }
{
    match operand {
        Operand::Fresh(slot) | Operand::Known(slot) => Operands {
            slot,
            argument,
            ..NONE
        },
        Operand::Constant(symbol) => Operands {
            argument,
            symbol,
            ..NONE
        },
    }
}

fn operands_of(instruction: Instruction) -> Operands
    ensures value { result ≡ operands_of instruction }
    ensures narrow { Narrow result }
{
    match instruction {
        Instruction::Allocate(slot) => Operands { slot, ..NONE },
        Instruction::Get(o, a) | Instruction::Put(o, a) => operands_by(o, a),
        Instruction::Unify(o) | Instruction::Set(o) => operands_by(o, 0),
        Instruction::GetStructure(slot, symbol) | Instruction::PutStructure(slot, symbol) => {
            Operands {
                slot,
                symbol,
                ..NONE
            }
        }
        Instruction::Call(symbol) => Operands { symbol, ..NONE },
        Instruction::Proceed => NONE,
    }
}

// What stands first for an operand of this kind.
fn in_first(kind: Kind, operands: Operands) -> u8
    ensures { result ≡ in_first kind operands }
{
    match kind {
        Kind::Slots | Kind::Slot => operands.slot,
        Kind::Argument => operands.argument,
        _ => 0,
    }
}

// What stands second for an operand of this kind.
fn in_second(kind: Kind, operands: Operands) -> u16
    ensures { result ≡ in_second kind operands }
{
    match kind {
        Kind::Argument => operands.argument as u16,
        Kind::Constant | Kind::Structure | Kind::Predicate => operands.symbol,
        _ => 0,
    }
}

// The argument among a word's operands, the first of which is of this kind.
fn argument_by(kind: Kind, first: u8, second: u16) -> u8
    ensures { result ≡ argument_by kind first second }
{
    match kind {
        Kind::Argument => first,
        _ => (second & 0xff) as u8,
    }
}

// The instruction of an opcode, with these operands.
fn build(opcode: usize, o: Operands) -> Instruction
    ensures { result ≡ built opcode o }
{
    match opcode {
        1 => Instruction::Allocate(o.slot),
        2 => Instruction::Get(Operand::Fresh(o.slot), o.argument),
        3 => Instruction::Get(Operand::Known(o.slot), o.argument),
        4 => Instruction::Get(Operand::Constant(o.symbol), o.argument),
        5 => Instruction::GetStructure(o.slot, o.symbol),
        6 => Instruction::Unify(Operand::Fresh(o.slot)),
        7 => Instruction::Unify(Operand::Known(o.slot)),
        8 => Instruction::Unify(Operand::Constant(o.symbol)),
        9 => Instruction::Put(Operand::Fresh(o.slot), o.argument),
        10 => Instruction::Put(Operand::Known(o.slot), o.argument),
        11 => Instruction::Put(Operand::Constant(o.symbol), o.argument),
        12 => Instruction::PutStructure(o.slot, o.symbol),
        13 => Instruction::Set(Operand::Fresh(o.slot)),
        14 => Instruction::Set(Operand::Known(o.slot)),
        15 => Instruction::Set(Operand::Constant(o.symbol)),
        16 => Instruction::Call(o.symbol),
        _ => Instruction::Proceed,
    }
}

// The word of an instruction. No From: its law would not say that `decode` is the way back.
pub fn encode(instruction: Instruction) -> u32
    ensures value { result ≡ encoded instruction }
    ensures back { decoded result ≡ instruction }
{
    let opcode = instruction.number();
    let entry = OPCODES[opcode - 1];
    let operands = operands_of(instruction);
    pack(
        opcode,
        in_first(entry.first, operands),
        in_second(entry.second, operands),
    )
}

// The instruction that a word is; one with no opcode is read as proceed. No TryFrom: it could fail where this cannot, and the rules speak of all words.
pub fn decode(word: u32) -> Instruction
    ensures value { result ≡ decoded word }
    ensures back { is_instruction word ≡ true → encoded result ≡ word }
{
    let opcode = opcode_of(word);
    let Some(entry) = look_up(opcode) else {
        return Instruction::Proceed;
    };
    let slot = first_of(word);
    let symbol = second_of(word);
    let argument = argument_by(entry.first, slot, symbol);
    build(
        opcode,
        Operands {
            slot,
            argument,
            symbol,
        },
    )
}
