// Writing the lines that are printed.
ghost use Rattle.std.specs.Prelude.{◌≡◌, ◌≤◌, length};
ghost use Rattle.octets.specs.Bytes.{overwrite};
ghost use Rattle.journal.specs.Entries.{used_bytes, scripts_on_trial};
ghost use Rattle.engine.specs.Worked.{lent_response};
ghost use Rattle.worked.specs.Printed as spec;

use lines::put::{put_bytes, put_number};

// Puts the five lines at the start of `out`. Returns the place after them.
pub fn put_lines(
    out: &mut [u8],
    refusal: usize,
    executed: usize,
    response: &[u8],
    journal: &[u8],
) -> usize
    requires { (spec.most_printed ≤ length out.old) × (length response.now ≤ lent_response) × (4 ≤ length journal.now) }
    ensures { (out.new ≡ overwrite out.old 0 (spec.five_lines refusal executed response.now (used_bytes journal.now) (scripts_on_trial journal.now))) × (result ≡ length (spec.five_lines refusal executed response.now (used_bytes journal.now) (scripts_on_trial journal.now))) × (result ≤ spec.most_printed) }
{
    let second = put_number(out, 0, b"refusal=", refusal, b'\n');
    let third = put_number(out, second, b"executed=", executed, b'\n');
    let fourth = put_bytes(out, third, b"response=", response, b'\n');
    let head = journal::read::head_of(journal);
    let fifth = put_number(out, fourth, b"used=", head.used, b'\n');
    put_number(out, fifth, b"scripts=", usize::from(head.scripts), b'\n')
}

// Puts the one line for an input of another shape at the start of `out`. Returns the place after it.
pub fn put_bad(out: &mut [u8]) -> usize
    requires { spec.most_printed ≤ length out.old }
    ensures { (out.new ≡ overwrite out.old 0 spec.bad_line) × (result ≡ length spec.bad_line) × (result ≤ spec.most_printed) }
{
    octets::copy(out, 0, b"input=bad\n");
    10
}
