// What a store does.
ghost use Rattle.std.specs.Prelude.{◌≡◌, ℕ, ◌+◌, ◌<◌, ◌≤◌, [], length, take, drop, if◌then◌else◌, Some, None, MatchBool, is_ok, slice_index};
ghost use Rattle.heap.specs.Limits.{cell_limit};
ghost use Rattle.heap.specs.Heaps.{Sound, Closed, Names, cell, total, arity};
ghost use Rattle.heap.specs.Solutions.{Root, Apart};
ghost use Rattle.heap.specs.declared.cell.Cell.TheVariants.{Unbound, Ref, Node};
ghost use Rattle.matching.specs.Trails.{undone, Kept};
ghost use Rattle.matching.specs.Unifies.{Unified};
ghost use Rattle.cells.specs.States.{Fine};
ghost use Rattle.cells.specs.Growth.{placed, grown, fits, structured, Spare, Grew, Saves};
ghost use Rattle.cells.specs.Stores.{cells_of, bound_of};

use crate::store::{PAIR_LIMIT, Store};
use heap::{CELL_LIMIT, Cell, root};
use matching::{Trail, Unifier, Unlike, undo};

// Makes the terms at `a` and `b` one, or says that they cannot be, where the first `top` of the cells are in use.
// A function over a slice: of a field that is an array no part can be lent.
fn unify_in_use(
    unifier: &mut Unifier<PAIR_LIMIT>,
    cells: &mut [Cell],
    top: u16,
    trail: &mut Trail,
    a: u16,
    b: u16,
) -> Result<(), Unlike>
    requires within { top ≤ length cells.old }
    requires few { top ≤ cell_limit }
    requires fine { Fine (take top cells.old) (length trail.old) }
    requires a_within { a < top }
    requires b_within { b < top }
    ensures fine { Fine (take top cells.new) (length trail.new) }
    ensures kept { Kept (take top cells.old) trail.old (take top cells.new) trail.new }
    ensures result { MatchBool (is_ok result) (Unified (take top cells.old) (take top cells.new) a b) (Apart (take top cells.old) a b) }
{
    unifier.unify(&mut cells[..top as usize], trail, a, b)
}

impl Store {
    pub fn new() -> Store
        ensures cells { cells_of result ≡ [] }
        ensures trail { bound_of result ≡ [] }
    {
        Store {
            cells: [Cell::Unbound; CELL_LIMIT],
            top: 0,
            trail: Trail::new(),
            unifier: Unifier::new(),
        }
    }

    // Gives up all cells and bindings.
    pub fn clear(&mut self)
        ensures cells { cells_of self.new ≡ [] }
        ensures trail { bound_of self.new ≡ [] }
    {
        self.top = 0;
        self.trail.clear();
    }

    // The cells in use.
    pub fn cells(&self) -> &[Cell]
        ensures value { result.now ≡ cells_of self.now }
        ensures sound { Sound result.now }
        ensures closed { Closed result.now }
        ensures few { length result.now ≤ cell_limit }
    {
        &self.cells[..self.top as usize]
    }

    // How many cells are in use.
    pub fn top(&self) -> u16
        ensures value { result ≡ length (cells_of self.now) }
        ensures within { result ≤ cell_limit }
    {
        self.top
    }

    // How many bindings the trail has. With `top` it says what to come back to.
    pub fn mark(&self) -> usize
        ensures value { result ≡ length (bound_of self.now) }
        ensures saves { Saves (cells_of self.now) (bound_of self.now) result (length (cells_of self.now)) }
    {
        self.trail.len()
    }

    // What the cell at `i` holds.
    pub fn get(&self, i: u16) -> Cell
        requires { i < length (cells_of self.now) }
        ensures { result ≡ cell (cells_of self.now) i }
    {
        self.cells[i as usize]
    }

    // Where the references from `i` lead.
    pub fn root(&self, i: u16) -> u16
        requires { i < length (cells_of self.now) }
        ensures { Root (cells_of self.now) i result }
    {
        root(self.cells(), i)
    }

    // Adds a cell that names older ones, and answers its place; where the area is full, nothing changes.
    fn push_cell(&mut self, c: Cell) -> Option<u16>
        requires older { (j : ℕ) → Names c j → j < length (cells_of self.old) }
        requires spare { total arity (cells_of self.old) + arity c ≤ length (cells_of self.old) + 1 }
        ensures value { result ≡ placed (cells_of self.old) }
        ensures cells { cells_of self.new ≡ grown (cells_of self.old) c }
        ensures trail { bound_of self.new ≡ bound_of self.old }
        ensures grew { Grew (cells_of self.old) (bound_of self.old) (cells_of self.new) (bound_of self.new) }
    {
        let at = self.top;
        if at as usize >= CELL_LIMIT {
            return None;
        }
        self.cells[at as usize] = c;
        self.top = at + 1;
        Some(at)
    }

    // A new unbound cell. It and the next two are refused only where the area is full.
    pub fn push_unbound(&mut self) -> Option<u16>
        ensures value { result ≡ placed (cells_of self.old) }
        ensures cells { cells_of self.new ≡ grown (cells_of self.old) Unbound }
        ensures trail { bound_of self.new ≡ bound_of self.old }
        ensures grew { Grew (cells_of self.old) (bound_of self.old) (cells_of self.new) (bound_of self.new) }
    {
        self.push_cell(Cell::Unbound)
    }

    // A new reference.
    pub fn push_ref(&mut self, i: u16) -> Option<u16>
        requires { i < length (cells_of self.old) }
        ensures value { result ≡ placed (cells_of self.old) }
        ensures cells { cells_of self.new ≡ grown (cells_of self.old) (Ref i) }
        ensures trail { bound_of self.new ≡ bound_of self.old }
        ensures grew { Grew (cells_of self.old) (bound_of self.old) (cells_of self.new) (bound_of self.new) }
    {
        self.push_cell(Cell::Ref(i))
    }

    // A new structure, or a constant where `arity` is 0. Its arguments are cells already, which no other structure has.
    pub fn push_node(&mut self, symbol: u16, arity: u16, first: u16) -> Option<u16>
        requires arguments { 0 < arity → first + arity ≤ length (cells_of self.old) }
        requires spare { Spare (cells_of self.old) arity }
        ensures value { result ≡ placed (cells_of self.old) }
        ensures cells { cells_of self.new ≡ grown (cells_of self.old) (Node symbol arity first) }
        ensures trail { bound_of self.new ≡ bound_of self.old }
        ensures grew { Grew (cells_of self.old) (bound_of self.old) (cells_of self.new) (bound_of self.new) }
    {
        self.push_cell(Cell::Node {
            symbol,
            arity,
            first,
        })
    }

    // A new structure with references to `args` for its arguments; where they do not all fit, nothing changes.
    pub fn push_structure(&mut self, symbol: u16, args: &[u16]) -> Option<u16>
        requires { (k : ℕ) → k < length args.now → slice_index args.now k < length (cells_of self.old) }
        ensures value { result ≡ (if fits (cells_of self.old) args.now then Some (length (cells_of self.old) + length args.now) else None) }
        ensures cells { cells_of self.new ≡ (if fits (cells_of self.old) args.now then structured (cells_of self.old) symbol args.now else cells_of self.old) }
        ensures trail { bound_of self.new ≡ bound_of self.old }
        ensures grew { Grew (cells_of self.old) (bound_of self.old) (cells_of self.new) (bound_of self.new) }
    {
        let first = self.top();
        if args.len() >= CELL_LIMIT - first as usize {
            return None;
        }
        for x in args {
            self.push_ref(*x);
        }
        self.push_node(symbol, args.len() as u16, first)
    }

    // Makes the terms at `a` and `b` one, or says that they cannot be.
    pub fn unify(&mut self, a: u16, b: u16) -> Result<(), Unlike>
        requires a_within { a < length (cells_of self.old) }
        requires b_within { b < length (cells_of self.old) }
        ensures kept { Kept (cells_of self.old) (bound_of self.old) (cells_of self.new) (bound_of self.new) }
        ensures grew { Grew (cells_of self.old) (bound_of self.old) (cells_of self.new) (bound_of self.new) }
        ensures result { MatchBool (is_ok result) (Unified (cells_of self.old) (cells_of self.new) a b) (Apart (cells_of self.old) a b) }
    {
        unify_in_use(
            &mut self.unifier,
            &mut self.cells,
            self.top,
            &mut self.trail,
            a,
            b,
        )
    }

    // Takes back the bindings since the trail was `mark` long, and gives up the cells from `top` on.
    pub fn leave(&mut self, mark: usize, top: u16)
        requires { Saves (cells_of self.old) (bound_of self.old) mark top }
        ensures cells { cells_of self.new ≡ take top (undone (drop mark (bound_of self.old)) (cells_of self.old)) }
        ensures trail { bound_of self.new ≡ take mark (bound_of self.old) }
    {
        undo(&mut self.cells, &mut self.trail, mark);
        self.top = top;
    }
}
