// The machine's memory: cells and trail in areas of fixed size, and matching on them.
#![tactic(auto)]

mod methods;
mod store;

pub use store::Store;
