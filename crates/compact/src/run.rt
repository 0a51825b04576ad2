// Running a compact script.
ghost use Rattle.std.specs.Prelude.{◌≡◌, ◌≤◌, length};
ghost use Rattle.card.specs.Lent.{StaysLent, held};
ghost use Rattle.journal.specs.Promised.{Starts};
ghost use Rattle.step.specs.Limits.{longest_script};
ghost use Rattle.step.specs.Steps.{state_of};
ghost use Rattle.compact.specs.Compact as spec;

use crate::reader::next_reading;
use card::lent::LentCard;
use command::{Asked, Format, Step};
use step::lent::{not_begun, step};
use step::read::{data_of, next_place};

// Runs a whole script of an application on a sound card with the script's mark: its session is lent to the step, command by command.
// Returns the script's last step.
fn run_lent(
    script: &[u8],
    application: usize,
    domain: usize,
    made: &mut [u8; 255],
    card: &mut LentCard<'_>,
) -> Step
    requires { Starts (held card.old) application × (length script.now ≤ longest_script) }
    ensures ran { state_of result (held card.new) ≡ spec.run script.now application domain (held card.old) }
    ensures stays { StaysLent card.old card.new }
{
    let mut session = session::start(application);
    let mut ended = not_begun();
    let mut at: usize = 0;
    // No `for`: each command says how many bytes it takes, and the last where the script stops.
    while at < script.len() {
        let reading = next_reading(script, at);
        let asked = Asked {
            format: Format::Compact,
            domain,
            command: reading.command,
            data: data_of(script, reading),
        };
        ended = step(&mut session, asked, ended.count, 0, false, made, card);
        at = next_place(reading.from + reading.size, ended.outcome, script.len());
    }
    Step {
        session,
        outcome: ended.outcome,
        count: ended.count,
    }
}

// Runs a whole script of an application on a sound card with the script's mark. Returns the script's last step.
pub fn run(script: &[u8], application: usize, domain: usize, card: &mut LentCard<'_>) -> Step
    requires { Starts (held card.old) application × (length script.now ≤ longest_script) }
    ensures ran { state_of result (held card.new) ≡ spec.run script.now application domain (held card.old) }
    ensures stays { StaysLent card.old card.new }
{
    let mut made = [0; 255];
    run_lent(script, application, domain, &mut made, card)
}
