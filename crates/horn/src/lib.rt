// Horn clauses: the definitions that everything else is proved against, and the theorems about them. Code has no part in them.
#![tactic(auto)]

pub mod theorems;
