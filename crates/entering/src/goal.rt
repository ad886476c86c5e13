// A goal.
// Its arguments stand in the cells from `first` on.
#[derive(Clone, Copy, Default)]
pub struct Goal {
    pub symbol: u16,
    pub arity: u16,
    pub first: u16,
}
