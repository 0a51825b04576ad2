// Running an expanded script.
ghost use Rattle.std.specs.Prelude.{◌≡◌, ◌+◌, ◌≤◌, length};
ghost use Rattle.octets.specs.Bytes.{part, overwrite};
ghost use Rattle.card.specs.Lent.{StaysLent, held};
ghost use Rattle.card.specs.Row.{Card};
ghost use Rattle.command.specs.Outcomes.{word_of, data_of, data_count};
ghost use Rattle.command.specs.Promised.{OutcomeFits};
ghost use Rattle.step.specs.Limits.{longest_script, rapdu_size};
ghost use Rattle.expanded.specs.Expanded as spec;
ghost use Rattle.expanded.specs.Promised.{Reaches, RunAsks, StepBadAsks};

use crate::answer::{put_bad, put_rapdu};
use crate::capdu::command_of;
use crate::reader::next_item;
use card::lent::LentCard;
use command::{Asked, Format, Outcome, Step};
use step::lent::{not_begun, step};
use step::read::{data_of, next_place};
use tlv::template::{Item, capdu};

// The bytes that a script's R-APDUs are gathered in: 1,000, and the R-APDU of a last command without data.
pub const ROOM_TO_GATHER: usize = 1004;

// Whether the R-APDU of a command of a case is kept: each under AE, and those of cases 2 and 4 under AA.
fn keeps(definite: bool, case: usize) -> bool
    ensures { result ≡ spec.keeps definite case }
{
    !definite | ((case == 2) | (case == 4))
}

// How many bytes of R-APDUs are kept in a lent buffer, and how many after these stand there for the last command.
#[derive(Clone, Copy)]
pub struct Rapdus {
    pub kept: usize,
    pub last: usize,
}

// A script after some commands whose R-APDUs are gathered: its step, and how many bytes of them there are.
#[derive(Drop)]
pub struct Gathered {
    pub step: Step,
    pub rapdus: Rapdus,
}

// Returns what is gathered of a script that has run no command.
fn none_gathered() -> Rapdus
    ensures { result ≡ record { kept = 0; last = 0 } }
{
    Rapdus { kept: 0, last: 0 }
}

// Writes the R-APDU of an outcome after the `kept` bytes. Returns what is gathered with it: among the bytes kept where it counts, and
// else as the last.
fn gather(
    counts: bool,
    o: Outcome,
    kept: usize,
    out: &mut [u8],
    files: &[u8],
    waiting: &[u8; 255],
) -> Rapdus
    requires { OutcomeFits (length files.now) o × (kept + rapdu_size (data_count o) ≤ length out.old) }
    ensures { (out.new ≡ overwrite out.old kept (spec.rapdu (data_of o files.now waiting.now) (word_of o)))
        × (length (spec.rapdu (data_of o files.now waiting.now) (word_of o)) ≡ rapdu_size (data_count o)) × (result ≡ spec.gathered_in counts kept (rapdu_size (data_count o))) }
{
    let end = put_rapdu(out, kept, o, files, waiting);
    if counts {
        return Rapdus { kept: end, last: 0 };
    }
    Rapdus {
        kept,
        last: end - kept,
    }
}

// A script whose C-APDUs were run up to the place `at`.
#[derive(Drop)]
struct Reached {
    gathered: Gathered,
    at: usize,
}

// Runs C-APDUs from the place `at` on, as a script of an application on a sound card with the script's mark, up to what is none or stops
// the script: the session is lent to the step, command by command. Returns the script there.
fn run_capdus(
    script: &[u8],
    definite: bool,
    at: usize,
    end: usize,
    application: usize,
    domain: usize,
    out: &mut [u8],
    made: &mut [u8; 255],
    card: &mut LentCard<'_>,
) -> Reached
    requires { RunAsks script.now at end (held card.old) application out.old }
    ensures reaches { Reaches script.now definite at end application domain (held card.old) (held card.new) out.new result }
    ensures stays { StaysLent card.old card.new }
{
    let mut session = session::start(application);
    let mut ended = not_begun();
    let mut rapdus = none_gathered();
    let mut place = at;
    while let Item::Capdu(from, size) = next_item(script, place, end) {
        let capdu = capdu(script, from, size);
        let reading = command_of(capdu);
        let asked = Asked {
            format: Format::Expanded,
            domain,
            command: reading.command,
            data: data_of(capdu, reading),
        };
        let counts = keeps(definite, reading.command.case);
        ended = step(
            &mut session,
            asked,
            ended.count,
            rapdus.kept,
            counts,
            made,
            card,
        );
        let files = &mut *card.files;
        rapdus = gather(
            counts,
            ended.outcome,
            rapdus.kept,
            out,
            files,
            &session.waiting,
        );
        place = next_place(from + size, ended.outcome, end);
    }
    Reached {
        gathered: Gathered {
            step: Step {
                session,
                outcome: ended.outcome,
                count: ended.count,
            },
            rapdus,
        },
        at: place,
    }
}

// Gathers a Bad format TLV as the last command. Returns the script after it.
fn step_bad(code: usize, before: Gathered, out: &mut [u8]) -> Gathered
    requires { StepBadAsks code before out.old }
    ensures { ((card : Card) → spec.progress_of result card out.new ≡ spec.step_bad code (spec.progress_of before card out.old)) × (result.rapdus.kept + result.rapdus.last ≤ spec.room_to_gather) }
{
    let kept = before.rapdus.kept;
    let place = put_bad(out, kept, code);
    let mut step = before.step;
    step.count += 1;
    let rapdus = Rapdus {
        kept,
        last: place - kept,
    };
    Gathered { step, rapdus }
}

// Runs the items from the place `at` to the end of a template's value, as a script of an application on a sound card with the script's
// mark. Returns the script at its end.
pub fn run(
    script: &[u8],
    definite: bool,
    at: usize,
    end: usize,
    application: usize,
    domain: usize,
    out: &mut [u8],
    card: &mut LentCard<'_>,
) -> Gathered
    requires { RunAsks script.now at end (held card.old) application out.old }
    ensures ran { (spec.progress_of result (held card.new) out.new ≡ spec.run_from (length script.now) script.now domain definite at end (spec.begun application (held card.old)))
        × (result.rapdus.kept + result.rapdus.last ≤ spec.room_to_gather) × (result.step.count ≤ longest_script) }
    ensures stays { StaysLent card.old card.new }
{
    let mut made = [0; 255];
    let reached = run_capdus(
        script,
        definite,
        at,
        end,
        application,
        domain,
        out,
        &mut made,
        card,
    );
    let g = reached.gathered;
    let Item::Bad(code) = next_item(script, reached.at, end) else {
        return g;
    };
    step_bad(code, g, out)
}
