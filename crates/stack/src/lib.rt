// A stack over a lent slice, for entries of any kind.
#![tactic(auto)]

mod ends;
mod stack;

pub use stack::Stack;
