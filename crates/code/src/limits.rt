// The limits of code.

// The clauses of a deck or an image, and the code words of all of them.
pub const CLAUSE_LIMIT: usize = 256;

pub const CODE_LIMIT: usize = 8192;

// The slots that a clause's code opens.
pub const SLOT_LIMIT: usize = 128;

// Its words between allocate and proceed: as many as a line may weigh, of which this crate knows nothing.
pub const WORD_LIMIT: usize = 128;

// The goals of a clause. This and the next are limits of a line too, of which this crate knows nothing.
pub const CALL_LIMIT: usize = 8;

// The arguments of a head, goal or structure.
pub const ARGUMENT_LIMIT: usize = 8;
