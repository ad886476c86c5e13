// Entering a clause: its code is run once, from a goal's arguments to the goals that it leaves.
#![tactic(auto)]

mod clauses;
mod operands;
mod steps;
mod structures;

pub use clauses::{attempt, enter};
pub use operands::{make_constant, make_slot};
