// The numbers of symbols and variables.
ghost use Rattle.std.specs.Prelude.{◌≡◌, ◌+◌, ◌<◌, ◌≤◌, List, length};
ghost use Rattle.horn.specs.Clauses.{Variable as ClauseVariable, is_blank};
ghost use Rattle.symbol_table.specs.Numbers.{number_in, names_of, known_variable, number_of, noted};
ghost use Rattle.symbol_table.specs.Tables.{signature};

use crate::table::SymbolTable;

fn is_blank(name: &[u8]) -> bool
    ensures { result ≡ is_blank name.now }
{
    matches!(name, [b'_'])
}

// The number of a symbol that is in the table.
pub fn symbol_number(symbols: &SymbolTable, name: &[u8], arity: u8) -> u16
    requires { number_in (signature symbols.now) name.now arity < length (signature symbols.now) }
    ensures { result ≡ number_in (signature symbols.now) name.now arity }
{
    symbols.find(name, arity).unwrap()
}

// The number of a variable that has been noted.
fn known_variable(variables: &SymbolTable, name: &[u8]) -> Option<u16>
    ensures { result ≡ known_variable (signature variables.now) name.now }
{
    if is_blank(name) {
        return None;
    }
    variables.find(name, 0)
}

// The number of a variable, which is noted if it is new; a `_` is new each time.
pub fn variable_number(variables: &mut SymbolTable, name: &[u8]) -> u8
    requires few { length (signature variables.old) < 128 }
    requires short { length name.now ≤ 31 }
    ensures number { (V : List ClauseVariable) → signature variables.old ≡ names_of V → result ≡ number_of V name.now }
    ensures noted { (V : List ClauseVariable) → signature variables.old ≡ names_of V → signature variables.new ≡ names_of (noted V name.now) }
    ensures more { length (signature variables.new) ≤ length (signature variables.old) + 1 }
{
    if let Some(k) = known_variable(variables, name) {
        return k as u8;
    }
    let k = variables.len();
    variables.add(name, 0);
    k as u8
}
