// Writing values under their names. It is done by hand: `write!` promises what it wrote only where it gives Ok, and of a lent slice not even
// then, and here every byte is promised always.
ghost use Rattle.std.specs.Prelude.{◌≡◌, ◌+◌, ◌*◌, ◌≤◌, length};
ghost use Rattle.octets.specs.Bytes.{overwrite};
ghost use Rattle.lines.specs.Digits.{decimal, hex_of};
ghost use Rattle.lines.specs.Named.{named};

use crate::digits::{put_decimal, put_hex};

// Puts a name, a number in decimal digits and the byte `last` at the place `at`. Returns the place after them.
pub fn put_number(out: &mut [u8], at: usize, name: &[u8], n: usize, last: u8) -> usize
    requires { at + length name.now + 21 ≤ length out.old }
    ensures { (out.new ≡ overwrite out.old at (named name.now (decimal n) last)) × (result ≡ at + length (named name.now (decimal n) last)) × (result ≤ at + length name.now + 21) }
{
    octets::copy(out, at, name);
    let end = put_decimal(out, at + name.len(), n);
    out[end] = last;
    end + 1
}

// Puts a name, bytes in hex digits and the byte `last` at the place `at`. Returns the place after them.
pub fn put_bytes(out: &mut [u8], at: usize, name: &[u8], bytes: &[u8], last: u8) -> usize
    requires { at + length name.now + 2 * length bytes.now + 1 ≤ length out.old }
    ensures { (out.new ≡ overwrite out.old at (named name.now (hex_of bytes.now) last)) × (result ≡ at + length (named name.now (hex_of bytes.now) last)) × (result ≡ at + length name.now + 2 * length bytes.now + 1) }
{
    octets::copy(out, at, name);
    let from = at + name.len();
    put_hex(out, from, bytes);
    let end = from + 2 * bytes.len();
    out[end] = last;
    end + 1
}
