// Setting up a query: cells for its variables, structures and goals.
#![tactic(auto)]

mod entries;
mod pieces;
mod starting;
mod theorems;

pub use pieces::{Entry, Piece};
pub use starting::start;
pub use theorems::{query_is_spelled, started_query_is_stored};
