// Pairs of cells that have yet to agree.
ghost use Rattle.std.specs.Prelude.{◌≡◌, ◌+◌, ◌≤◌, ◌++◌};
ghost use Rattle.arrayvec.specs.ArrayVec.{array_vec_len};
ghost use Rattle.heap.specs.Limits.{cell_limit};
ghost use Rattle.matching.specs.Unifies.{rows};

use arrayvec::ArrayVec;

#[derive(Clone, Copy, Default)]
pub struct Pair {
    pub left: u16,
    pub right: u16,
}

// Adds the pairs of `n` cells from `i` and from `j` on.
pub(crate) fn push_rows<const PAIRS: usize>(
    pairs: &mut ArrayVec<Pair, PAIRS>,
    i: u16,
    j: u16,
    n: u16,
)
    requires i_fits { i + n ≤ cell_limit }
    requires j_fits { j + n ≤ cell_limit }
    requires room { array_vec_len pairs.old + n ≤ PAIRS }
    ensures { pairs.new.items ≡ pairs.old.items ++ rows i j n }
{
    for k in 0..n {
        pairs.push(Pair {
            left: i + k,
            right: j + k,
        });
    }
}
