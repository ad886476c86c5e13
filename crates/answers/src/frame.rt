// An entry of the stack that terms are written with.

// Arguments still to be written: `left` cells from `next` on, of the structure at `owner`.
// `owner` is there for the proof alone: no two frames of a stack have one owner, so there are never more frames than cells.
#[derive(Clone, Copy, Default)]
pub struct Frame {
    pub owner: u16,
    pub next: u16,
    pub left: u16,
}
