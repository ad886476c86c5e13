// What a fault is called: its number, its layer, the place and, for code, the rule; and the line that says so.
ghost use Rattle.std.specs.Prelude.{◌≡◌};
ghost use Rattle.text.specs.Buffers.{filled};
ghost use Rattle.lines.specs.Refusals.{refusal, field_refusal, line_refusal, call_refusal, refusal_line, written};

use crate::faults::{CallFault, FieldFault, LineFault};
use text::write_numbers;

// The bytes of a refusal, at most: a letter, and four numbers with a comma before each.
pub const REFUSAL_LIMIT: usize = 85;

// The four numbers of the line, as they are printed.
#[derive(Clone, Copy, PartialEq, Eq)]
pub struct Refusal {
    pub number: u8,
    pub layer: u8,
    pub place: usize,
    pub rule: u8,
}

impl From<FieldFault> for Refusal {
    ghost from_gives = { λ e r. r ≡ field_refusal e };

    fn from(fault: FieldFault) -> Refusal {
        match fault {
            FieldFault::Form { place } => Refusal::at(2, 1, place),
        }
    }
}

impl From<LineFault> for Refusal {
    ghost from_gives = { λ e r. r ≡ line_refusal e };

    fn from(fault: LineFault) -> Refusal {
        match fault {
            LineFault::Field(fault) => fault.into(),
            LineFault::Length => Refusal::at(1, 2, 0),
            LineFault::Header { place } => Refusal::at(3, 2, place),
            LineFault::Missing { place } => Refusal::at(4, 2, place),
            LineFault::LeftOver { place } => Refusal::at(5, 2, place),
            LineFault::Variable { place } => Refusal::at(6, 2, place),
            LineFault::Heavy { place } => Refusal::at(7, 2, place),
        }
    }
}

impl From<CallFault> for Refusal {
    ghost from_gives = { λ e r. r ≡ call_refusal e };

    fn from(fault: CallFault) -> Refusal {
        match fault {
            CallFault::Line(fault) => fault.into(),
            CallFault::Limit { place } => Refusal::at(8, 3, place),
            CallFault::Buffer => Refusal::at(10, 3, 0),
        }
    }
}

impl Refusal {
    // A refusal that no rule of code is the reason for.
    fn at(number: u8, layer: u8, place: usize) -> Refusal
        ensures { result ≡ refusal number layer place }
    {
        Refusal {
            number,
            layer,
            place,
            rule: 0,
        }
    }

    // Writes `R,number,layer,place,rule` at the buffer's beginning, and answers the length;
    // where that is longer than the buffer, it stays as it was: what a Display does not say of lent memory.
    pub fn write(self, buffer: &mut [u8]) -> Result<usize, CallFault>
        ensures value { result ≡ written (refusal_line self) buffer.old }
        ensures after { buffer.new ≡ filled (refusal_line self) buffer.old }
    {
        let numbers = [
            self.number as usize,
            self.layer as usize,
            self.place,
            self.rule as usize,
        ];
        write_numbers(b'R', &numbers, buffer).ok_or(CallFault::Buffer)
    }
}
