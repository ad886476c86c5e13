// Matching of terms in cells, with the trail that takes it back.
#![tactic(auto)]

mod binding;
mod joining;
mod pairs;
mod trail;
mod undoing;
mod unifier;

pub use binding::bind;
pub use pairs::Pair;
pub use trail::{Bound, Trail};
pub use undoing::undo;
pub use unifier::{Unifier, Unlike};
