// The bytes of names and variables.
ghost use Rattle.std.specs.Prelude.{◌≡◌, ◌||◌, take, drop, ◌==◌};
ghost use Rattle.std.specs.List.{position};
ghost use Rattle.lines.specs.Words.{run, upper, plain, namely, every, is_name, is_variable};

// The bytes of a name or variable, at most.
pub const NAME_LIMIT: usize = 31;

// Where the byte stands first.
fn find(bytes: &[u8], byte: u8) -> Option<usize>
    ensures { result ≡ position (λ b. b == byte) bytes.now }
{
    bytes.iter().position(|b| *b == byte)
}

// What stands before the first `stop`, and what stands from it on.
pub(crate) fn cut(bytes: &[u8], stop: u8) -> (&[u8], &[u8])
    ensures front { result.0.now ≡ take (run stop bytes.now) bytes.now }
    ensures back { result.1.now ≡ drop (run stop bytes.now) bytes.now }
{
    bytes.split_at(find(bytes, stop).unwrap_or(bytes.len()))
}

fn is_plain(b: u8) -> bool
    ensures { result ≡ plain b }
{
    b.is_ascii_alphanumeric() || b == b'_'
}

fn is_initial(b: u8) -> bool
    ensures { result ≡ (upper b || b == 95) }
{
    b.is_ascii_uppercase() || b == b'_'
}

fn is_namely(b: u8) -> bool
    ensures { result ≡ namely b }
{
    is_plain(b) || b == b'.' || b == b'-'
}

// Whether there are only letters, digits and `_`.
pub fn all_plain(bytes: &[u8]) -> bool
    ensures { result ≡ every plain bytes.now }
{
    bytes.iter().all(|b| is_plain(*b))
}

// Whether there are only these, `.` and `-`.
fn all_namely(bytes: &[u8]) -> bool
    ensures { result ≡ every namely bytes.now }
{
    bytes.iter().all(|b| is_namely(*b))
}

// A name and a variable are told by a line each: one function over their tests would need the tests' meanings beside the tests.
pub fn is_name(bytes: &[u8]) -> bool
    ensures { result ≡ is_name bytes.now }
{
    let [first, rest @ ..] = bytes else {
        return false;
    };
    first.is_ascii_lowercase() && bytes.len() <= NAME_LIMIT && all_namely(rest)
}

pub(crate) fn is_variable(bytes: &[u8]) -> bool
    ensures { result ≡ is_variable bytes.now }
{
    let [first, rest @ ..] = bytes else {
        return false;
    };
    is_initial(*first) && bytes.len() <= NAME_LIMIT && all_plain(rest)
}
