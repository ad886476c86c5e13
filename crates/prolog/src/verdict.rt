// What a line of a deck is.
ghost use Rattle.std.specs.Prelude.{◌≡◌};
ghost use Rattle.prolog.specs.Puts.{kind_verdict};

use lines::Kind;

#[derive(Clone, Copy, PartialEq, Eq)]
pub enum Verdict {
    Clause,
    Query,
    Refused,
}

// Of an accepted line.
impl From<Kind> for Verdict {
    ghost from_gives = { λ k v. v ≡ kind_verdict k };

    fn from(kind: Kind) -> Verdict {
        match kind {
            Kind::Clause => Verdict::Clause,
            Kind::Query => Verdict::Query,
        }
    }
}
