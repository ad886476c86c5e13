// Lines: from bytes to a clause or a query, or a fault, and the lines that faults are written as.
#![tactic(auto)]

mod bytes;
mod faults;
mod fields;
mod gather;
mod kind;
mod line;
mod reader;
mod refusals;
mod tokens;

pub use bytes::{NAME_LIMIT, all_plain, is_name};
pub use faults::{Area, CallFault, FieldFault, LineFault};
pub use fields::Fields;
pub use gather::Gathered;
pub use kind::Kind;
pub use line::{LINE_LIMIT, Line};
pub use reader::{read_clause, read_query};
pub use refusals::{REFUSAL_LIMIT, Refusal};
pub use tokens::{ARITY_LIMIT, Token};
