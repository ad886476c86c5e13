// Compiling an accepted clause line.
ghost use Rattle.std.specs.Prelude.{◌≡◌, ◌+◌, ◌≤◌, length};
ghost use Rattle.lines.specs.declared.kind.Kind.TheVariants.{Clause as ClauseLine};
ghost use Rattle.lines.specs.Grammar.{Proper};
ghost use Rattle.lines.specs.Said.{terms_of, words_left};
ghost use Rattle.compiler.specs.Compiled.{CodeOf};
ghost use Rattle.symbol_table.specs.Numbers.{Covers};
ghost use Rattle.symbol_table.specs.Tables.{signature};

use crate::compiled::Compiled;
use crate::flatten::flatten;
use crate::writer::write_clause;
use code::key_of;
use lines::Line;
use symbol_table::SymbolTable;

// Writes the code of an accepted clause line, whose symbols are all in the table, at a place of the buffer, and answers its row and the place
// after it. The buffer is the caller's, where the clauses' codes stand one after another; the rest of it is as it was.
pub fn compile_clause(symbols: &SymbolTable, line: Line<'_>, out: &mut [u32], at: usize) -> Compiled
    requires clause { line.kind ≡ ClauseLine }
    requires proper { Proper ClauseLine (terms_of line) }
    requires covered { Covers (signature symbols.now) (words_left line.body) }
    requires room { at + (line.weight + 2) ≤ length out.old }
    ensures { CodeOf (signature symbols.now) (terms_of line.entry) out.old out.new at result }
{
    let clause = flatten(symbols, line.body);
    let predicates = clause.predicates.as_slice();
    let head = predicates[0];
    let words = write_clause(
        symbols,
        clause.variables,
        head,
        &predicates[1..],
        &clause.items,
    );
    let end = at + words.len();
    out[at..end].copy_from_slice(&words);
    Compiled {
        predicate: head,
        key: key_of(&words),
        end,
    }
}
