// Clause lines and query lines.
ghost use Rattle.std.specs.Prelude.{◌≡◌};
ghost use Rattle.lines.specs.Kinds.{mark, least, heads};

#[derive(Clone, Copy, PartialEq, Eq)]
pub enum Kind {
    Clause,
    Query,
}

impl Kind {
    // The letter in the first field.
    pub(crate) fn mark(self) -> u8
        ensures { result ≡ mark self }
    {
        match self {
            Kind::Clause => b'C',
            Kind::Query => b'Q',
        }
    }

    // The terms before the goals.
    pub(crate) fn heads(self) -> usize
        ensures { result ≡ heads self }
    {
        match self {
            Kind::Clause => 1,
            Kind::Query => 0,
        }
    }

    // The least number of goals, which is also the weight of the first term's own field.
    pub(crate) fn least(self) -> u8
        ensures { result ≡ least self }
    {
        match self {
            Kind::Clause => 0,
            Kind::Query => 1,
        }
    }
}
