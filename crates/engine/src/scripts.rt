// A script of each format: its mark is set, it is run, and its answer written.
ghost use Rattle.std.specs.Prelude.{◌≡◌, ◌≤◌, length, Ok};
ghost use Rattle.card.specs.Lent.{StaysLent, held};
ghost use Rattle.command.specs.declared.Format.TheVariants as formats;
ghost use Rattle.journal.specs.Changes.{with_mark};
ghost use Rattle.engine.specs.Numbers.{answer_of};
ghost use Rattle.engine.specs.Calls as spec;
ghost use Rattle.engine.specs.Promised.{RunScriptAsks, AnswerFits};

use crate::{Call, Done};
use card::lent::LentCard;
use expanded::answer::put_answer;
use expanded::run::ROOM_TO_GATHER;

// Sets the mark of a compact script, runs it, and writes its answer. Returns the answer's length and the count of commands.
pub fn run_compact(call: Call, script: &[u8], response: &mut [u8], card: &mut LentCard<'_>) -> Done
    requires { RunScriptAsks formats.Compact (held card.old) (spec.arguments_of call script.now response.old) }
    ensures ran { (spec.gives (answer_of (Ok result)) (held card.new) response.new
        ≡ spec.run_script formats.Compact (spec.arguments_of call script.now response.old) (with_mark (held card.old))) × AnswerFits (answer_of (Ok result)) }
    ensures stays { StaysLent card.old card.new }
{
    journal::write::mark(card.journal);
    let domain = octets::wide(call.domain);
    let step = compact::run::run(script, call.application, domain, card);
    let count = step.count;
    let files = &mut *card.files;
    let length = compact::answer::put_answer(response, step, files);
    Done { length, count }
}

// Sets the mark of an expanded script, runs the items of its template's value from the place `at` to `end`, and writes the answer of the
// template's form. Returns the answer's length and the count of commands.
pub fn run_value(
    definite: bool,
    at: usize,
    end: usize,
    call: Call,
    script: &[u8],
    response: &mut [u8],
    card: &mut LentCard<'_>,
) -> Done
    requires { (at ≤ end) × (end ≤ length script.now) × RunScriptAsks formats.Expanded (held card.old) (spec.arguments_of call script.now response.old) }
    ensures ran { (spec.gives (answer_of (Ok result)) (held card.new) response.new
        ≡ spec.run_value definite at end (spec.arguments_of call script.now response.old) (with_mark (held card.old))) × AnswerFits (answer_of (Ok result)) }
    ensures stays { StaysLent card.old card.new }
{
    journal::write::mark(card.journal);
    let mut rapdus = [0; ROOM_TO_GATHER];
    let g = expanded::run::run(
        script,
        definite,
        at,
        end,
        call.application,
        octets::wide(call.domain),
        &mut rapdus,
        card,
    );
    let step = g.step;
    let count = step.count;
    let gathered = g.rapdus.kept + g.rapdus.last;
    let length = put_answer(response, definite, count, &rapdus[..gathered]);
    Done { length, count }
}
