// Rule V7: the row's key is the code's.
ghost use Rattle.std.specs.Prelude.{◌≡◌, map};
ghost use Rattle.code.specs.Words.{decode};
ghost use Rattle.code.specs.Rules.{v7, structure_at, structure_on, argument_one, key_by, key_of, keyed};

use crate::instructions::{Instruction, Operand};
use crate::words::decode as decoded;

// The symbol of a get_structure on the slot.
fn structure_at(word: Instruction, slot: u8) -> Option<u16>
    ensures { result ≡ structure_at slot word }
{
    match word {
        Instruction::GetStructure(y, f) if y == slot => Some(f),
        _ => None,
    }
}

// The symbol of the first get_structure on the slot.
fn structure_on(slot: u8, code: &[u32]) -> Option<u16>
    ensures { keyed result ≡ structure_on slot (map decode code.now) }
{
    // A loop: no law of find_map gives the first symbol as the definition of V7 has it.
    for w in code {
        if let Some(f) = structure_at(decoded(*w), slot) {
            return Some(f);
        }
    }
    None
}

// What argument 1 is equated with.
fn argument_one(word: Instruction) -> Option<Operand>
    ensures { result ≡ argument_one word }
{
    match word {
        Instruction::Get(o, 1) => Some(o),
        _ => None,
    }
}

// The symbol that argument 1 begins with, where it is equated with the operand and the code follows.
fn key_by(operand: Operand, code: &[u32]) -> Option<u16>
    ensures { keyed result ≡ key_by operand (map decode code.now) }
{
    match operand {
        Operand::Fresh(y) => structure_on(y, code),
        Operand::Known(_) => None,
        Operand::Constant(c) => Some(c),
    }
}

// A row's word has 0 for no symbol, and else 1 more than the symbol.
fn keyed(symbol: Option<u16>) -> usize
    ensures { result ≡ keyed symbol }
{
    symbol.map_or(0, |f| 1 + f as usize)
}

// The key that a clause's code gives its row.
pub fn key_of(code: &[u32]) -> usize
    ensures { result ≡ key_of (map decode code.now) }
{
    for (i, w) in code.iter().enumerate() {
        if let Some(o) = argument_one(decoded(*w)) {
            return keyed(key_by(o, &code[i + 1..]));
        }
    }
    0
}

pub(crate) fn keeps_key(code: &[u32], key: usize) -> bool
    ensures { result ≡ v7 key (map decode code.now) }
{
    key == key_of(code)
}
