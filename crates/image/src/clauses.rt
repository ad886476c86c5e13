// The code of an image's clauses.
ghost use Rattle.std.specs.Prelude.{◌≡◌, map, length, None};
ghost use Rattle.image.specs.Rows.{row_of, row_fault};
ghost use Rattle.image.specs.Symbols.{err_part};
ghost use Rattle.image.specs.Checked.{code_fault};

use crate::faults::ImageFault;
use crate::rows::{Row, end_before};
use code::broken_rule;

// The first clause, from 1, whose code breaks a rule is refused, with its lowest.
pub(crate) fn check_code(rows: &[[u32; 3]], code: &[u32], arities: &[u8]) -> Result<(), ImageFault>
    requires { row_fault (length arities.now) (length code.now) 0 (map row_of rows.now) ≡ None }
    ensures { err_part result ≡ code_fault arities.now code.now 0 (map row_of rows.now) }
{
    for (i, words) in rows.iter().enumerate() {
        let row = Row::from(*words);
        let end = end_before(&rows[i + 1..], code.len());
        let own = &code[row.start..end];
        if let Some(rule) = broken_rule(own, arities, row.predicate, row.key) {
            return Err(ImageFault::Code {
                clause: i + 1,
                rule: rule.number(),
            });
        }
    }
    Ok(())
}
