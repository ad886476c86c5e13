// Names as bytes.
ghost use Rattle.std.specs.Prelude.{◌≡◌, ℕ, ◌+◌, ◌≤◌, length, take, drop};

// Writes the name at `at`.
pub(crate) fn write_name(out: &mut [u8], at: usize, name: &[u8])
    requires { at + length name.now ≤ length out.old }
    ensures same { take at out.new ≡ take at out.old }
    ensures name { take (length name.now) (drop at out.new) ≡ name.now }
{
    out[at..at + name.len()].copy_from_slice(name);
}
