// The heap: cells that stand for terms, following references, and whether one cell is reached from another.
#![tactic(auto)]

mod cell;
mod follow;
mod marks;
mod search;
mod theorems;

pub use cell::{CELL_LIMIT, Cell};
pub use follow::root;
pub use marks::Marks;
pub use search::Search;
pub use theorems::general;
