// Terms built in a store, from the last part of a line to the first.
ghost use Rattle.unify.specs.Grows.{Grows};

use crate::parts::{PART_LIMIT, Part};
use arrayvec::ArrayVec;
use cells::Store;
use lines::ARITY_LIMIT;

// The most arguments of a structure.
const ARGUMENT_LIMIT: usize = ARITY_LIMIT as usize;

// What building needs beside the store. It lives as long as the program: a line clears no more of it than it needs.
#[derive(Drop)]
pub(crate) struct Draft {
    // the cells of variables, at their first places
    known: [Option<u16>; PART_LIMIT],
    // the terms that are no structure's arguments yet
    terms: ArrayVec<u16, PART_LIMIT>,
}

impl Draft {
    pub(crate) fn new() -> Draft {
        Draft {
            known: [None; PART_LIMIT],
            terms: ArrayVec::new(),
        }
    }

    // A line of so many parts begins.
    fn begin(&mut self, parts: usize) {
        for cell in self.known.iter_mut().take(parts) {
            *cell = None;
        }
        self.terms.clear();
    }
}

// The cell of a variable, which is made where there is none yet.
fn variable(store: &mut Store, known: &mut Option<u16>) -> Option<u16>
    ensures { Grows store.old store.new }
{
    if known.is_none() {
        *known = store.push_unbound();
    }
    *known
}

// The cell of a structure or constant; its arguments are the last terms, the first of them at the end.
fn structure(
    store: &mut Store,
    symbol: u16,
    arity: u8,
    terms: &mut ArrayVec<u16, PART_LIMIT>,
) -> Option<u16>
    ensures { Grows store.old store.new }
{
    let mut args = ArrayVec::<u16, ARGUMENT_LIMIT>::new();
    for _ in 0..arity {
        args.try_push(terms.pop()?).ok()?;
    }
    let top = store.top();
    if args.as_slice().iter().any(|x| *x >= top) {
        return None;
    }
    store.push_structure(symbol, args.as_slice())
}

// The cell of a part.
fn place(store: &mut Store, part: Part, draft: &mut Draft) -> Option<u16>
    ensures { Grows store.old store.new }
{
    match part.arity {
        None => variable(store, draft.known.get_mut(part.first as usize)?),
        Some(arity) => structure(store, part.first, arity, &mut draft.terms),
    }
}

// The cells of the two terms of the line; none where they are not two.
#[tactic(auto, using(cells::proofs::GrowthLaws::grew_trans))]
pub(crate) fn build(store: &mut Store, parts: &[Part], draft: &mut Draft) -> Option<(u16, u16)>
    ensures { Grows store.old store.new }
{
    draft.begin(parts.len());
    for part in parts.iter().rev() {
        let cell = place(store, *part, draft)?;
        draft.terms.try_push(cell).ok()?;
    }
    match draft.terms.as_slice() {
        [b, a] => Some((*a, *b)),
        _ => None,
    }
}
