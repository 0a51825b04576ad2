// The program of the worked card: it reads four lines, runs one script and prints five lines.
#![tactic(auto)]

mod input;
mod output;
mod runs;

ghost use Rattle.std.specs.Prelude.{◌≡◌, ◌≤◌, length};
ghost use Rattle.octets.specs.Bytes.{overwrite};
ghost use Rattle.worked.specs.Printed.{most_printed, printed};

use input::MOST_DIGITS;
use lines::worked::LENT_RESPONSE;
use std::io;
use streams::read_full;

// The bytes that are read: one more than the longest input of the right shape has.
const MOST_READ: usize = 16428;

// The bytes that are printed at most.
const MOST_PRINTED: usize = 124 + 2 * LENT_RESPONSE;

// Puts what is printed for an input at the start of `out`. Returns how many bytes it has.
fn print(input: &[u8], out: &mut [u8]) -> usize
    requires { most_printed ≤ length out.old }
    ensures { (out.new ≡ overwrite out.old 0 (printed input.now)) × (result ≡ length (printed input.now)) × (result ≤ most_printed) }
{
    let Some(asked) = input::input_of(input) else {
        return output::put_bad(out);
    };
    let digits = &input[asked.from..asked.to];
    let mut script = [0u8; MOST_DIGITS / 2];
    let n = lines::digits::decode(digits, &mut script);
    runs::put_run(asked.call, &script[..n], out)
}

// Reads standard input, and writes what is printed for it.
fn main(rt: HostRuntime) -> io::Result<()> {
    let mut input = [0u8; MOST_READ];
    let n = read_full(&mut rt.stdin(), &mut input)?;
    let mut out = [0u8; MOST_PRINTED];
    let k = print(&input[..n], &mut out);
    rt.write_all(&out[..k])
}
