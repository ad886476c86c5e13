// The stack: its entries are the first `len` of the slice's items.
// The slice is lent and may have any length, where a vector of fixed capacity wants a constant.
ghost use Rattle.std.specs.Prelude.{◌≤◌, length};

#[derive(Drop)]
pub struct Stack<'a, T> {
    pub items: &'a mut [T],
    pub len: usize,
    ghost ok: { len ≤ length items.now },
}
