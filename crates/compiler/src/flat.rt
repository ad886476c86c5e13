// A clause's items with what the compiler found out about them.
use crate::items::Item;
use symbol_table::SymbolTable;

// An item, the place after its term, and its slot if it is a structure.
#[derive(Clone, Copy, Default)]
pub(crate) struct Place {
    pub(crate) item: Item,
    pub(crate) after: usize,
    pub(crate) slot: u8,
}

// The items by their places. That these are right for the slots of a draft is asked by each method: it is said of the two, and one value of
// both would have to say at each step that the places stay.
#[derive(Clone, Copy)]
pub(crate) struct Flat<'a> {
    pub(crate) symbols: &'a SymbolTable,
    pub(crate) places: &'a [Place],
}
