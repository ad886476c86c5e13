// Text in lent buffers: lines of numbers.
#![tactic(auto)]

mod decimals;
mod numbers;

pub use numbers::write_numbers;
