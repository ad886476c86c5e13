// The check of an image.
ghost use Rattle.std.specs.Prelude.{◌≡◌, map, IfOk};
ghost use Rattle.image.specs.Symbols.{symbols_of, arity};
ghost use Rattle.image.specs.Checked.{laid_out, body, checked};
ghost use Rattle.image.specs.Said.{said, parts_of};
ghost use Rattle.image.specs.Images.{OneImage, ClausesRunnable};
ghost use Rattle.image.specs.Programs.{Distinct};

use crate::clauses::check_code;
use crate::faults::ImageFault;
use crate::header::Header;
use crate::rows::check_rows;
use crate::symbols::check_symbols;
use crate::view::Image;

// The rows and the code, `rest`, after the words of the symbols.
fn check_layout<'a>(
    header: Header,
    symbols: &'a [u32],
    rest: &'a [u32],
    arities: &[u8],
) -> Result<Image<'a>, ImageFault>
    requires { arities.now ≡ map arity (symbols_of header.symbols symbols.now) }
    ensures { said result ≡ laid_out (symbols_of header.symbols symbols.now) header.clauses header.size rest.now }
{
    if !header.fits(rest.len()) {
        return Err(ImageFault::Layout);
    }
    let (rows, code) = rest.split_at(3 * header.clauses);
    let image = Image {
        symbol_count: header.symbols,
        symbols,
        rows,
        code,
    };
    let table = image.rows();
    check_rows(table, header.symbols, header.size)?;
    check_code(table, code, arities)?;
    Ok(image)
}

// The words after the header.
fn check_body<'a>(header: Header, words: &'a [u32]) -> Result<Image<'a>, ImageFault>
    ensures { said result ≡ body header.symbols header.clauses header.size words.now }
{
    let (arities, rest) = check_symbols(words, header.symbols)?;
    let (symbols, _) = words.split_at(words.len() - rest.len());
    check_layout(header, symbols, rest, arities.as_slice())
}

fn check_words<'a>(words: &'a [u32]) -> Result<Image<'a>, ImageFault>
    ensures { said result ≡ checked words.now }
{
    let [format, symbols, clauses, size, rest @ ..] = words else {
        return Err(ImageFault::Header);
    };
    let header = Header::try_from([*format, *symbols, *clauses, *size])?;
    check_body(header, rest)
}

// The image that the words are, or the first fault.
pub fn check<'a>(words: &'a [u32]) -> Result<Image<'a>, ImageFault>
    ensures value { said result ≡ checked words.now }
    ensures one_image { OneImage words.now (said result) }
    ensures symbols { IfOk result (λ i. Distinct (parts_of i).symbols) }
    ensures clauses { IfOk result (λ i. ClausesRunnable (parts_of i)) }
{
    check_words(words)
}
