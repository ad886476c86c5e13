// Sheets: what holds of clause lines and a query line, by the reading of lines and the definitions of horn clauses.
#![tactic(auto)]

pub mod theorems;
