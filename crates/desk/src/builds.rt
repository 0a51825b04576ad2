// What the program `build` prints.
ghost use Rattle.std.specs.Prelude.{◌≡◌, ◌+◌, ◌≤◌, length};
ghost use Rattle.octets.specs.Bytes.{overwrite, zeros};
ghost use Rattle.step.specs.Limits.{longest_script};
ghost use Rattle.operations.specs.Builds as operations;
ghost use Rattle.desk.specs.Lists.{most_text, limited_text};
ghost use Rattle.desk.specs.Builds as spec;
ghost use Rattle.desk.specs.Promised.{most_built};

use crate::lists::{limit, list_from};
use engine::LONGEST_SCRIPT;
use lines::put::{put_bytes, put_number};
use lines::values::number_at;

// The signs that are read at most: one more than a text may have.
pub const MOST_READ: usize = 65537;

// The signs that are printed at most.
pub const MOST_PRINTED: usize = 76 + 2 * LONGEST_SCRIPT;

// Puts the number of a line that is not as asked at the start of `out`. Returns the place behind it.
#[tactic(auto, unfolding(crate::specs::Builds::bad_lines, lines::specs::Digits::ascii))]
pub(crate) fn put_bad_line(out: &mut [u8], number: usize) -> usize
    requires { 26 ≤ length out.old }
    ensures { (out.new ≡ overwrite out.old 0 (spec.bad_lines number)) × (result ≡ length (spec.bad_lines number)) × (result ≤ 26) }
{
    put_number(out, 0, b"line=", number, b'\n')
}

// Builds the script of a list, and puts the three lines of that at the start of `out`. Returns the place behind them.
fn put_built(format: u8, rows: &[u8], data: &[u8], out: &mut [u8]) -> usize
    requires { most_built ≤ length out.old }
    ensures { (out.new ≡ overwrite out.old 0 (spec.building_lines (operations.build format rows.now «data».now (zeros longest_script)))) × (result ≡ length (spec.building_lines (operations.build format rows.now «data».now (zeros longest_script)))) × (result ≤ most_built) }
{
    let mut script = [0u8; LONGEST_SCRIPT];
    let built = operations::in_numbers(operations::build(format, rows, data, &mut script));
    let second = put_number(out, 0, b"refusal=", built.refusal, b'\n');
    let third = put_number(out, second, b"operations=", built.operations, b'\n');
    let n = built.length;
    put_bytes(out, third, b"script=", &script[..n], b'\n')
}

// Puts what is printed for a text within the limit at the start of `out`. Returns how many signs it has.
fn put_text(text: &[u8], out: &mut [u8]) -> usize
    requires { (length text.now ≤ most_text + 1) × (most_built ≤ length out.old) }
    ensures { (out.new ≡ overwrite out.old 0 (spec.printed_for text.now)) × (result ≡ length (spec.printed_for text.now)) × (result ≤ most_built) }
{
    let Some((format, second)) = number_at(text, 0, b"format=", b'\n', 10, 1, 1) else {
        return put_bad_line(out, 1);
    };
    let mut rows = [0u8; 65544];
    let mut data = [0u8; 32776];
    match list_from(text, second, &mut rows, &mut data) {
        Ok((size, held)) => put_built(format as u8, &rows[..size], &data[..held], out),
        Err(number) => put_bad_line(out, number),
    }
}

// Puts what is printed for a text at the start of `out`, and ends the text where it is too long. Returns how many signs are printed.
#[tactic(auto, unfolding(crate::specs::Builds::built))]
pub fn print(text: &mut [u8], out: &mut [u8]) -> usize
    requires { (length text.old ≤ most_text + 1) × (most_built ≤ length out.old) }
    ensures { (text.new ≡ limited_text text.old) × (out.new ≡ overwrite out.old 0 (spec.built text.old)) × (result ≡ length (spec.built text.old)) × (result ≤ most_built) }
{
    limit(text);
    put_text(text, out)
}
