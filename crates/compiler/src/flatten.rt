// From a line's tokens to the items of a clause.
ghost use Rattle.std.specs.Prelude.{◌≡◌, ◌+◌, ◌<◌, ◌≤◌, List, [], length};
ghost use Rattle.horn.specs.Clauses.{Variable as ClauseVariable};
ghost use Rattle.lines.specs.Tokens.{word};
ghost use Rattle.lines.specs.Said.{words_left};
ghost use Rattle.symbol_table.specs.Numbers.{Knows, Covers, names_of, noted_by, Shorts, Short, variables_after};
ghost use Rattle.compiler.specs.Flatten.{item_for, predicate_for, items as items_of, predicates as predicates_of};
ghost use Rattle.symbol_table.specs.Tables.{signature};

use crate::items::{ITEM_LIMIT, Item};
use arrayvec::ArrayVec;
use code::CALL_LIMIT;
use lines::{Fields, Token};
use symbol_table::{SymbolTable, symbol_number, variable_number};

// The predicates of a head and its goals, at most.
const PREDICATE_LIMIT: usize = CALL_LIMIT + 1;

// The predicate of a head or goal; 0 for a variable, which an accepted line does not have there: but that is known of the whole line, and not of one token.
fn predicate_of(symbols: &SymbolTable, token: Token<'_>) -> u16
    requires { Knows (signature symbols.now) (word token) }
    ensures { result ≡ predicate_for (signature symbols.now) (word token.entry) }
{
    match token {
        Token::Name(f) => symbol_number(symbols, f, 0),
        Token::Structure(f, n) => symbol_number(symbols, f, n),
        Token::Variable(_) => 0,
    }
}

// The item of an argument.
fn item_of(symbols: &SymbolTable, variables: &mut SymbolTable, token: Token<'_>) -> Item
    requires knows { Knows (signature symbols.now) (word token) }
    requires few { length (signature variables.old) < 128 }
    requires short { Short (word token) }
    ensures item { (V : List ClauseVariable) → signature variables.old ≡ names_of V → result ≡ item_for (signature symbols.now) V (word token.entry) }
    ensures noted { (V : List ClauseVariable) → signature variables.old ≡ names_of V → signature variables.new ≡ names_of (noted_by V (word token.entry)) }
    ensures more { length (signature variables.new) ≤ length (signature variables.old) + 1 }
{
    match token {
        Token::Name(f) => Item::Atom(symbol_number(symbols, f, 0)),
        Token::Structure(f, n) => Item::Structure(symbol_number(symbols, f, n)),
        Token::Variable(v) => Item::Variable(variable_number(variables, v)),
    }
}

// A clause by numbers: the predicates of its head and goals, the items of their arguments, and how many variables there are.
#[derive(Drop)]
pub(crate) struct Flattened {
    pub(crate) predicates: ArrayVec<u16, PREDICATE_LIMIT>,
    pub(crate) items: ArrayVec<Item, ITEM_LIMIT>,
    pub(crate) variables: u8,
}

// Finds the predicates of the head and the goals, and the items of their arguments. The variables are numbered in turn.
pub(crate) fn flatten(symbols: &SymbolTable, mut body: Fields<'_>) -> Flattened
    requires covered { Covers (signature symbols.now) (words_left body) }
    requires short { Shorts (words_left body) }
    requires goals { length (predicates_of (signature symbols.now) 0 (words_left body)) ≤ PREDICATE_LIMIT }
    requires arguments { length (items_of (signature symbols.now) [] 0 (words_left body)) ≤ ITEM_LIMIT }
    ensures predicates { result.predicates.items ≡ predicates_of (signature symbols.now) 0 (words_left body.entry) }
    ensures items { result.items.items ≡ items_of (signature symbols.now) [] 0 (words_left body.entry) }
    ensures variables { result.variables ≡ length (variables_after [] 0 (words_left body.entry)) }
{
    let mut variables = SymbolTable::new();
    let mut predicates = ArrayVec::new();
    let mut items = ArrayVec::new();
    let mut need: usize = 0;
    while let Some(token) = body.next_token() {
        if need == 0 {
            predicates.push(predicate_of(symbols, token));
            need = token.arity();
        } else {
            items.push(item_of(symbols, &mut variables, token));
            need = token.arity() + (need - 1);
        }
    }
    Flattened {
        predicates,
        items,
        variables: variables.len() as u8,
    }
}
