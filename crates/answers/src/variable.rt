// A variable of the query.

// Its name, `len` bytes of the query's line from `start` on, and its cell.
// A place and no slice: whoever keeps the line with its variables from answer to answer could not keep slices of it beside it.
#[derive(Clone, Copy)]
pub struct Variable {
    pub start: u16,
    pub len: u16,
    pub cell: u16,
}
