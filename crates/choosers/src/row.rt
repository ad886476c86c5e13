// What a chooser is told of a clause.

// The symbol number of the clause's predicate, and its key as an image's row has it: 0, or 1 plus the symbol number of its first argument.
#[derive(Clone, Copy, Default)]
pub struct Row {
    pub symbol: u8,
    pub key: u16,
}
