// Faults, a type for each layer; a lower layer's fault rises whole inside the next one's.
ghost use Rattle.std.specs.Prelude.{◌≡◌};
ghost use Rattle.lines.specs.declared.faults.LineFault.TheVariants.{Field};
ghost use Rattle.lines.specs.declared.faults.CallFault.TheVariants.{Line, Limit};
ghost use Rattle.lines.specs.Refusals.{area_place};

// Of the field reader.
#[derive(Clone, Copy, PartialEq, Eq)]
pub enum FieldFault {
    // an awaited field that is no name, structure or variable
    Form { place: usize },
}

// Of the line reader.
#[derive(Clone, Copy, PartialEq, Eq)]
pub enum LineFault {
    Field(FieldFault),
    // no byte, or too many
    Length,
    // the first field is not the letter, or the second no number of goals
    Header { place: usize },
    // a field is awaited and none is left
    Missing { place: usize },
    // a field is left over
    LeftOver { place: usize },
    // a head or goal is a variable
    Variable { place: usize },
    // the weight passes its limit
    Heavy { place: usize },
}

// What a deck has a limit for, with its place in a refusal.
#[derive(Clone, Copy, PartialEq, Eq)]
pub enum Area {
    Clauses = 1,
    Symbols,
    CodeWords,
}

// Of a call.
#[derive(Clone, Copy, PartialEq, Eq)]
pub enum CallFault {
    Line(LineFault),
    // the clauses (1), symbols (2) or code words (3) pass their limit; any place has a refusal
    Limit { place: usize },
    // what is to be written is longer than the buffer
    Buffer,
}

impl From<FieldFault> for LineFault {
    ghost from_gives = { λ e r. r ≡ Field e };

    fn from(e: FieldFault) -> LineFault {
        LineFault::Field(e)
    }
}

impl From<LineFault> for CallFault {
    ghost from_gives = { λ e r. r ≡ Line e };

    fn from(e: LineFault) -> CallFault {
        CallFault::Line(e)
    }
}

impl From<Area> for CallFault {
    ghost from_gives = { λ a r. r ≡ Limit (area_place a) };

    fn from(area: Area) -> CallFault {
        CallFault::Limit {
            place: area as usize,
        }
    }
}
