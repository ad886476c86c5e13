// Symbols: names with their arities, numbered by first occurrence, and variables, numbered alike.
#![tactic(auto)]

mod lookup;
mod names;
mod noting;
mod symbol;
mod table;
mod variables;

pub use noting::note_symbols;
pub use table::{SYMBOL_LIMIT, Symbol, SymbolTable};
pub use variables::{symbol_number, variable_number};
