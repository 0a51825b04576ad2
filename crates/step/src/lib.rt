// One command on a card: decided first, with nothing of the card lent to be written, and then done.
#![tactic(auto)]

mod act;
pub mod lent;
mod limit;
pub mod read;

ghost use Rattle.std.specs.Prelude.{◌≡◌, ◌+◌, ◌<◌, length};
ghost use Rattle.card.specs.Lent.{StaysLent, held};
ghost use Rattle.session.specs.Session.{session_of};
ghost use Rattle.step.specs.Steps.{moved_to, commanded};
ghost use Rattle.step.specs.Promised as spec;

use act::{Done, carry_out};
use card::lent::LentCard;
use command::Asked;
use decide::decide;
use limit::limited;
use session::Standing;

// Runs one command on a card, from where a script stands after `count` others, with `kept` bytes of R-APDUs kept and its
// own counted or not. Returns where the script stands after it, how it ended, and the count with it. What it makes stands in `made` until
// it is done, and is then put to the front of the waiting bytes.
fn run_command(
    asked: Asked<'_>,
    s: Standing,
    count: usize,
    kept: usize,
    counts: bool,
    made: &mut [u8; 255],
    waiting: &mut [u8; 255],
    card: &mut LentCard<'_>,
) -> Done
    requires { spec.RunCommandAsks (held card.old) s asked.command (length asked.«data».now) kept × (count < 65535) }
    ensures ran { (moved_to (session_of result.standing waiting.new) result.outcome (held card.new)
        ≡ commanded asked.entry.format asked.entry.domain asked.entry.command asked.entry.«data».now (session_of s waiting.old) kept counts (held card.old))
        × (result.count ≡ count + 1) }
    ensures stays { StaysLent card.old card.new }
{
    let table = &mut *card.table;
    let files = &mut *card.files;
    let journal = &mut *card.journal;
    let d = decide(asked, s, table, files, journal, made);
    carry_out(
        limited(d, s, kept, counts),
        count,
        asked.data,
        made,
        waiting,
        card,
    )
}
