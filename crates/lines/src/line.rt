// An accepted line.
ghost use Rattle.std.specs.Prelude.{◌≡◌, ◌+◌, []};
ghost use Rattle.horn.specs.Notation.{wordss};
ghost use Rattle.horn.specs.Terms.{count};
ghost use Rattle.horn.specs.Weights.{load};
ghost use Rattle.lines.specs.Fields.{after};
ghost use Rattle.lines.specs.Kinds.{heads, least};
ghost use Rattle.lines.specs.Spelled.{spelled};
ghost use Rattle.lines.specs.Tokens.{words_of};

use crate::fields::Fields;
use crate::kind::Kind;

// The bytes of a line, at most.
pub const LINE_LIMIT: usize = 512;

// A clause or query as its line has it: how many goals it has, its weight, and its tokens, a clause's head first.
#[derive(Clone, Copy)]
pub struct Line<'a> {
    pub kind: Kind,
    pub goals: usize,
    pub weight: usize,
    pub body: Fields<'a>,
    ghost counted: { heads kind + goals ≡ count (spelled body) },
    ghost weighed: { weight ≡ load (least kind) (spelled body) },
    ghost told: { words_of (after body.rest.now) ≡ wordss (spelled body) [] },
}
