// What compiling a clause answers.

// The row of a clause, its predicate and its key as an image's row has it, and the place after its code.
#[derive(Clone, Copy)]
pub struct Compiled {
    pub predicate: u16,
    pub key: usize,
    pub end: usize,
}
