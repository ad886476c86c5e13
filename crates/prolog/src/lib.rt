// The lines of a deck as Prolog text.
#![tactic(auto)]

mod clauses;
mod proofread;
mod refusals;
mod terms;
mod verdict;

pub use proofread::proof_line;
pub use verdict::Verdict;
