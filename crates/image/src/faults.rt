// Why an image is declined.
ghost use Rattle.std.specs.Prelude.{◌≡◌};
ghost use Rattle.image.specs.Refusals.{image_refusal};

use lines::Refusal;

#[derive(Clone, Copy, PartialEq, Eq)]
pub enum ImageFault {
    // too few words, another format, or a count above its limit
    Header,
    // a symbol, from 0, that is cut off, has a wrong arity or name, or repeats an earlier one
    Symbol { place: usize },
    // another number of words after the symbols than the header says, or code and no clause
    Layout,
    // the row of a clause, from 1
    Row { clause: usize },
    // a clause, from 1, whose code breaks a rule; any number has a refusal
    Code { clause: usize, rule: u8 },
}

impl From<ImageFault> for Refusal {
    ghost from_gives = { λ e r. r ≡ image_refusal e };

    fn from(fault: ImageFault) -> Refusal {
        let (number, place, rule) = match fault {
            ImageFault::Header => (12, 0, 0),
            ImageFault::Symbol { place } => (13, place, 0),
            ImageFault::Layout => (14, 0, 0),
            ImageFault::Row { clause } => (14, clause, 0),
            ImageFault::Code { clause, rule } => (15, clause, rule),
        };
        Refusal {
            number,
            layer: 4,
            place,
            rule,
        }
    }
}
