// The answer of a compact script.
ghost use Rattle.std.specs.Prelude.{◌≡◌, ◌+◌, ◌≤◌, ◌<◌, length};
ghost use Rattle.octets.specs.Bytes.{overwrite};
ghost use Rattle.command.specs.Outcomes.{data_count};
ghost use Rattle.command.specs.Promised.{OutcomeFits};
ghost use Rattle.compact.specs.Compact as spec;

use command::Step;
use command::ends::{put_data, word_of};

// Writes the answer of a script's last step to the front of the response memory: count, status, data. Returns its length.
pub fn put_answer(response: &mut [u8], step: Step, files: &[u8]) -> usize
    requires { OutcomeFits (length files.now) step.outcome × (step.count < 256) × (3 + data_count step.outcome ≤ length response.old) }
    ensures { (response.new ≡ overwrite response.old 0 (spec.answer step files.now)) × (result ≡ length (spec.answer step files.now)) }
{
    let outcome = step.outcome;
    let session = step.session;
    octets::fill(response, 0, 1, step.count as u8);
    octets::put_num(response, 1, word_of(outcome));
    put_data(response, 3, outcome, files, &session.waiting)
}
