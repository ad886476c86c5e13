// Images: symbols, rows and code as words; the check that accepts them, and their files.
#![tactic(auto)]

mod checker;
mod clauses;
mod faults;
mod files;
mod header;
mod rows;
mod symbols;
mod view;

pub use checker::check;
pub use faults::ImageFault;
pub use files::{to_bytes, to_words};
pub use header::FORMAT;
pub use rows::Row;
pub use symbol_table::Symbol;
pub use symbols::Symbols;
pub use view::Image;
