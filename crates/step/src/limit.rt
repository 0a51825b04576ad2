// "If R-APDUs kept so far and this one .. would pass 1,000 bytes, the command changes nothing, gets 6F00 and stops."
ghost use Rattle.std.specs.Prelude.{◌≡◌, List, ℕ, ◌+◌, ◌≤◌, ◌<◌};
ghost use Rattle.card.specs.Row.{Card};
ghost use Rattle.card.specs.Sound.{most_file_bytes};
ghost use Rattle.plan.specs.Ends.{Plan};
ghost use Rattle.command.specs.Outcomes.{data_count};
ghost use Rattle.step.specs.Limits as spec;
ghost use Rattle.decide.specs.Promised.{Decided};

use command::checks::Check;
use command::ends::data_count;
use plan::{Decision, failed};
use session::Standing;
use tlv::lengths::length_size;

const MOST_KEPT: usize = 1000;

// Returns how many bytes an R-APDU takes whose data are `n` bytes.
fn rapdu_size(n: usize) -> usize
    requires { n + 2 < 65536 }
    ensures { (result ≡ spec.rapdu_size n) × (result ≤ n + 6) }
{
    1 + (length_size(n + 2) + (n + 2))
}

// Returns what was decided, held to the 1,000 bytes: a decision whose R-APDU counts, and would pass them after the `kept` bytes, becomes
// a failure that changes nothing.
pub fn limited(d: Decision, s: Standing, kept: usize, counts: bool) -> Decision
    requires { (kept ≤ spec.most_kept) × (data_count d.outcome ≤ most_file_bytes) }
    ensures { (card : Card) («data» bytes : List ℕ) (plan : Plan) → Decided card «data» bytes plan d → Decided card «data» bytes (spec.limited kept counts s plan) result }
{
    if counts {
        let outcome = d.outcome;
        if MOST_KEPT < kept + rapdu_size(data_count(outcome)) {
            return failed(s, Check::AnswerTooLong);
        }
    }
    d
}
