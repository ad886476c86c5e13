// A cell. Terms name one another by the numbers of their cells, and not by boxes: nothing is allocated.
pub const CELL_LIMIT: usize = 4224;

#[derive(Clone, Copy, Default)]
pub enum Cell {
    #[default]
    Unbound,
    Ref(u16),
    // the arguments stand from `first` on, and are written before the node; a constant has none
    Node { symbol: u16, arity: u16, first: u16 },
}
