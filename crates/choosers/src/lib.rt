// Choosers: which clause is tried next for a goal, by its predicate and its first argument.
#![tactic(auto)]

mod chains;
mod chooser;
mod every;
mod row;
mod walk;
mod walker;

pub use chooser::Chooser;
pub use every::{both_offer, offers};
pub use row::Row;
pub use walker::{FirstArgument, Straight, Walker};
