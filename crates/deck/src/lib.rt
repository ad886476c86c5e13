// The deck: the clause lines that it took.
#![tactic(auto)]

mod state;
mod taking;

pub use state::Deck;
