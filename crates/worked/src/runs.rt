// A run on the worked card.
ghost use Rattle.std.specs.Prelude.{◌≡◌, ◌≤◌, length};
ghost use Rattle.octets.specs.Bytes.{overwrite};
ghost use Rattle.worked.specs.Printed.{most_printed, ran_on, result_lines};

use crate::output::put_lines;
use engine::Call;
use journal::JOURNAL_LENGTH;
use lines::worked::{LENT_RESPONSE, run_on_worked};

// Runs a script on the worked card, and puts the run's five lines at the start of `out`. Returns the place after them.
pub fn put_run(call: Call, script: &[u8], out: &mut [u8]) -> usize
    requires { most_printed ≤ length out.old }
    ensures { (out.new ≡ overwrite out.old 0 (result_lines (ran_on call script.now))) × (result ≡ length (result_lines (ran_on call script.now))) × (result ≤ most_printed) }
{
    let mut journal = [0u8; JOURNAL_LENGTH];
    let mut response = [0u8; LENT_RESPONSE];
    let answer = run_on_worked(call, script, &mut response, &mut journal);
    put_lines(
        out,
        answer.number,
        answer.count,
        &response[..answer.length],
        &journal,
    )
}
