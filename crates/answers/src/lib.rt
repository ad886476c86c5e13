// The answer writer: the terms that cells stand for, as a line in a lent buffer.
#![tactic(auto)]

mod buffer;
mod bytes;
mod fields;
mod frame;
mod names;
mod numbering;
mod sink;
mod terms;
mod values;
mod variable;
mod writer;

pub use buffer::{Count, Write};
pub use frame::Frame;
pub use names::Names;
pub use numbering::Numbering;
pub use sink::Sink;
pub use variable::Variable;
pub use writer::write_answer;
