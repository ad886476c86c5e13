// The text of a listing.
use code::{Kind, decode, first_of, look_up, second_of};
use image::{FORMAT, Image, ImageFault, Row, Symbol};
use lines::{REFUSAL_LIMIT, Refusal};
use std::alloc::{AllocError, Global};
use std::{fmt, str};

// The one line of a fault, which a refusal writes into a buffer.
pub(crate) fn list_fault(heap: Global, fault: ImageFault) -> Result<String, AllocError> {
    let mut line = [0; REFUSAL_LIMIT];
    let len = Refusal::from(fault).write(&mut line).unwrap_or(0);
    line.iter().take(len).map(|b| *b as char).collect(heap)
}

// A symbol as `name/arity`, if there is one.
#[derive(Clone, Copy)]
struct Named<'a>(Option<&'a Symbol>);

impl fmt::Display for Named<'_> {
    fn fmt<W: fmt::Write>(&self, f: &mut fmt::Formatter<W>) -> fmt::Result {
        let Some(symbol) = self.0 else {
            return Ok(());
        };
        // a name is ASCII, and is written at once
        let name = str::from_utf8(symbol.name()).map_err(|_| fmt::Error)?;
        write!(f, "{name}/{}", symbol.arity())
    }
}

// An operand: a slot as `Y0`, an argument as `A1`, a symbol by its name.
#[derive(Clone, Copy)]
struct Operand<'a> {
    symbols: &'a [Symbol],
    kind: Kind,
    value: usize,
}

impl fmt::Display for Operand<'_> {
    fn fmt<W: fmt::Write>(&self, f: &mut fmt::Formatter<W>) -> fmt::Result {
        let value = self.value;
        match self.kind {
            Kind::Nothing => Ok(()),
            Kind::Slots => write!(f, "{value}"),
            Kind::Slot => write!(f, "Y{value}"),
            Kind::Argument => write!(f, "A{value}"),
            Kind::Constant | Kind::Structure | Kind::Predicate => {
                write!(f, "{}", Named(self.symbols.get(value)))
            }
        }
    }
}

// A code word: the mnemonic and the operands that it has.
#[derive(Clone, Copy)]
struct Word<'a> {
    symbols: &'a [Symbol],
    word: u32,
}

impl fmt::Display for Word<'_> {
    fn fmt<W: fmt::Write>(&self, f: &mut fmt::Formatter<W>) -> fmt::Result {
        let instruction = decode(self.word);
        f.write_str(instruction.mnemonic())?;
        let Some(entry) = look_up(instruction.number()) else {
            return Ok(());
        };
        let first = Operand {
            symbols: self.symbols,
            kind: entry.first,
            value: first_of(self.word) as usize,
        };
        let second = Operand {
            symbols: self.symbols,
            kind: entry.second,
            value: second_of(self.word) as usize,
        };
        match (first.kind, second.kind) {
            (Kind::Nothing, Kind::Nothing) => Ok(()),
            (_, Kind::Nothing) => write!(f, " {first}"),
            (Kind::Nothing, _) => write!(f, " {second}"),
            _ => write!(f, " {first},{second}"),
        }
    }
}

// The whole listing of an image, whose symbols are these.
#[derive(Clone, Copy)]
pub(crate) struct Listing<'a> {
    pub(crate) image: Image<'a>,
    pub(crate) symbols: &'a [Symbol],
}

impl Listing<'_> {
    fn named(&self, number: usize) -> Named<'_> {
        Named(self.symbols.get(number))
    }

    // A clause: its number, its predicate, its key, and its code.
    fn write_clause<W: fmt::Write>(
        &self,
        f: &mut fmt::Formatter<W>,
        i: usize,
        row: Row,
    ) -> fmt::Result {
        let number = i.saturating_add(1);
        write!(f, "clause {number}: {}, key ", self.named(row.predicate))?;
        match row.key.checked_sub(1) {
            None => writeln!(f, "0")?,
            Some(key) => writeln!(f, "{}", self.named(key))?,
        }
        let code = self.image.code;
        let end = self.image.row(number).map_or(code.len(), |next| next.start);
        for word in code.get(row.start..end).unwrap_or(&[]) {
            let word = Word {
                symbols: self.symbols,
                word: *word,
            };
            writeln!(f, "    {word}")?;
        }
        Ok(())
    }
}

impl fmt::Display for Listing<'_> {
    fn fmt<W: fmt::Write>(&self, f: &mut fmt::Formatter<W>) -> fmt::Result {
        let symbols = self.symbols.len();
        let clauses = self.image.rows().len();
        let words = self.image.code.len();
        writeln!(f, "ok")?;
        writeln!(
            f,
            "header: format {FORMAT}, symbols {symbols}, clauses {clauses}, code words {words}"
        )?;
        for (number, symbol) in self.symbols.iter().enumerate() {
            writeln!(f, "symbol {number}: {}", Named(Some(symbol)))?;
        }
        for (i, words) in self.image.rows().iter().enumerate() {
            self.write_clause(f, i, Row::from(*words))?;
        }
        Ok(())
    }
}
