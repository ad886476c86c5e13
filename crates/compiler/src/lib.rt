// The compiler: from a clause line to the words of its code.
#![tactic(auto)]

mod body;
mod compile;
mod compiled;
mod draft;
mod flat;
mod flatten;
mod head;
mod items;
mod places;
mod rows;
mod slots;
mod writer;

pub use compile::compile_clause;
pub use compiled::Compiled;
pub use symbol_table::SymbolTable;
