// "One session's directory, file, record number and waiting bytes move on with each command": the session is lent to a thin step, which
// calls the by-value command function.
ghost use Rattle.std.specs.Prelude.{◌≡◌, ◌+◌, ◌<◌, length};
ghost use Rattle.card.specs.Lent.{StaysLent, held};
ghost use Rattle.step.specs.Steps.{not_begun, moved_to, commanded};
ghost use Rattle.step.specs.Promised as spec;

use crate::run_command;
use card::lent::LentCard;
use command::ends::NORMAL;
use command::{Asked, Outcome};
use session::Session;

// How a command ended, and how many commands there were with it.
#[derive(Clone, Copy)]
pub struct Ended {
    pub outcome: Outcome,
    pub count: usize,
}

// Returns how a script stands that has run no command.
pub fn not_begun() -> Ended
    ensures { result ≡ not_begun }
{
    Ended {
        outcome: Outcome::Well(NORMAL),
        count: 0,
    }
}

// Runs one command on a card, after `count` others: the lent session moves on. Returns how the command ended, and the
// count with it.
pub fn step(
    session: &mut Session,
    asked: Asked<'_>,
    count: usize,
    kept: usize,
    counts: bool,
    made: &mut [u8; 255],
    card: &mut LentCard<'_>,
) -> Ended
    requires { spec.RunCommandAsks (held card.old) session.old.standing asked.command (length asked.«data».now) kept × (count < 65535) }
    ensures ran { (moved_to session.new result.outcome (held card.new)
        ≡ commanded asked.entry.format asked.entry.domain asked.entry.command asked.entry.«data».now session.old kept counts (held card.old))
        × (result.count ≡ count + 1) }
    ensures stays { StaysLent card.old card.new }
{
    let after = run_command(
        asked,
        session.standing,
        count,
        kept,
        counts,
        made,
        &mut session.waiting,
        card,
    );
    session.standing = after.standing;
    Ended {
        outcome: after.outcome,
        count: after.count,
    }
}
