// The symbols of an image.
ghost use Rattle.std.specs.Prelude.{◌≡◌, ◌≤◌, true, false, [], map, length, take, drop, IfOk, MatchOption, nat_eq};
ghost use Rattle.std.specs.Option.{option_map};
ghost use Rattle.std.specs.List.{list_all};
ghost use Rattle.code.specs.Tests.{some};
ghost use Rattle.image.specs.declared.faults.ImageFault.TheVariants.{Symbol as BadSymbol};
ghost use Rattle.image.specs.Limits.{symbol_limit};
ghost use Rattle.image.specs.Bytes.{bytes_of};
ghost use Rattle.symbol_table.specs.Tables.{symbol_of as held};
ghost use Rattle.image.specs.Symbols.{symbol_of, extent, symbols_of, after_symbols, proper, symbol_fault, arity, err_part};
ghost use Rattle.image.specs.Symbols.{same as alike};

use crate::faults::ImageFault;
use arrayvec::ArrayVec;
use lines::{ARITY_LIMIT, NAME_LIMIT, is_name};
use symbol_table::{SYMBOL_LIMIT, Symbol};

// The symbols at the front of some words.
#[derive(Clone, Copy)]
pub struct Symbols<'a> {
    pub(crate) words: &'a [u32],
}

impl Iterator for Symbols<'_> {
    ghost use Rattle.image.specs.Said.{GivesNext};
    ghost use Rattle.std.specs.Iterator.{at_most};

    type Item = Symbol;

    ghost next_gives = { GivesNext };

    ghost remaining = { λ s. at_most (length s.words.now) };

    // The next symbol, or none where the words begin with none.
    fn next(&mut self) -> Option<Symbol> {
        let (words, rest) = split_symbol(self.words);
        let symbol = read_symbol(words)?;
        self.words = rest;
        Some(symbol)
    }
}

// The words of the first symbol, and those after them. How many they are stands in the first word,
// so that symbols are cut off one after another.
fn split_symbol<'a>(words: &'a [u32]) -> (&'a [u32], &'a [u32])
    ensures symbol { result.0.now ≡ take (extent words.now) words.now }
    ensures rest { result.1.now ≡ drop (extent words.now) words.now }
{
    let [word, ..] = words else {
        return (words, words);
    };
    let len = 1 + (*word % 256).div_ceil(4) as usize;
    words.split_at(len.min(words.len()))
}

// The bytes of a name's words.
fn name_bytes(words: &[u32]) -> ArrayVec<u8, 32>
    requires { length words.now ≤ 8 }
    ensures { result.items ≡ bytes_of words.now }
{
    let mut bytes = ArrayVec::new();
    for word in words {
        bytes.try_extend_from_slice(&word.to_le_bytes()).unwrap();
    }
    bytes
}

// Whether all bytes are 0.
fn is_blank(bytes: &[u8]) -> bool
    ensures { result ≡ list_all (λ b. nat_eq b 0) bytes.now }
{
    bytes.iter().all(|b| *b == 0)
}

// The symbol that the words are: not cut off, arity and name right, zeros after the name.
fn read_symbol(words: &[u32]) -> Option<Symbol>
    ensures { MatchOption result (proper words.now ≡ false) (λ s. (proper words.now ≡ true) × (held s ≡ symbol_of words.now)) }
{
    let [first, name @ ..] = words else {
        return None;
    };
    // by 256, as the definition has the word
    let size = (*first % 256) as usize;
    let arity = *first / 256;
    if arity > ARITY_LIMIT as u32 || name.len() != size.div_ceil(4) || size > NAME_LIMIT {
        return None;
    }
    let bytes = name_bytes(name);
    let (name, after) = bytes.as_slice().split_at(size);
    if !is_name(name) || !is_blank(after) {
        return None;
    }
    Some(Symbol::new(name, arity as u8))
}

// Whether the symbol is one of the first `count`, which are cut off one after another, as at `split_symbol`.
fn repeats(words: &[u32], count: usize, symbol: &[u32]) -> bool
    ensures { result ≡ some (alike symbol.now) (symbols_of count words.now) }
{
    let mut left = words;
    for _ in 0..count {
        let (other, rest) = split_symbol(left);
        if symbol == other {
            return true;
        }
        left = rest;
    }
    false
}

// The arities of the symbols and the words after them; the lowest symbol that is wrong is refused. They are cut off one after another, as at `split_symbol`.
pub(crate) fn check_symbols<'a>(
    words: &'a [u32],
    count: usize,
) -> Result<(ArrayVec<u8, SYMBOL_LIMIT>, &'a [u32]), ImageFault>
    requires { count ≤ symbol_limit }
    ensures fault { err_part result ≡ option_map BadSymbol (symbol_fault [] (symbols_of count words.now)) }
    ensures arities { IfOk result (λ r. r.0.items ≡ map arity (symbols_of count words.now)) }
    ensures rest { IfOk result (λ r. r.1.now ≡ after_symbols count words.now) }
{
    let mut arities = ArrayVec::new();
    let mut left = words;
    for place in 0..count {
        let (own, rest) = split_symbol(left);
        let fault = ImageFault::Symbol { place };
        let symbol = read_symbol(own).ok_or(fault)?;
        if repeats(words, place, own) {
            return Err(fault);
        }
        arities.push(symbol.arity());
        left = rest;
    }
    Ok((arities, left))
}
