// What the archives for C share: the answer of a call in one number.
#![tactic(auto)]

ghost use Rattle.std.specs.Prelude.{◌≡◌};
ghost use Rattle.boundary.specs.Packed as spec;

// Returns a number, a count and a length in one number.
pub fn packed(number: usize, count: usize, length: usize) -> u64
    requires { spec.Fits number count length }
    ensures { result ≡ spec.packed number count length }
{
    number as u64 + (256 * (count as u64) + 4294967296 * (length as u64))
}
