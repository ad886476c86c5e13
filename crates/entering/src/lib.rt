// Entering a clause, free of the machine that does it: goals, and what becomes of the cells.
#![tactic(auto)]

mod goal;
mod theorems;

pub use goal::Goal;
pub use theorems::{clashing_key_is_denied, entry_is_a_step, stored_path_passes};
