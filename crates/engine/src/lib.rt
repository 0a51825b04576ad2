// The three calls.
#![tactic(auto)]

mod numbers;
mod scripts;

ghost use Rattle.std.specs.Prelude.{◌≡◌, ◌<◌, []};
ghost use Rattle.card.specs.Lent.{StaysLent, held};
ghost use Rattle.card.specs.Row.{lent};
ghost use Rattle.engine.specs.Numbers.{answer_of, number_of};
ghost use Rattle.engine.specs.Calls as spec;
ghost use Rattle.engine.specs.Promised.{AnswerFits};

use card::lent::LentCard;
use numbers::{Start, start_of};
use scripts::{run_compact, run_value};
use tlv::template::Template;

// The bytes that a script has at most.
pub const LONGEST_SCRIPT: usize = 1024;

// What a run is called with beside its script: the entry number of an application, the access domain, and the format number. The last two
// are any bytes, as a caller in C passes them.
#[derive(Clone, Copy, Debug, PartialEq, Eq)]
pub struct Call {
    pub application: usize,
    pub domain: u8,
    pub format: u8,
}

// What an accepted call answers: the length of the answer, and the count of commands; both are 0 but for a run.
#[derive(Clone, Copy, Debug, PartialEq, Eq)]
pub struct Done {
    pub length: usize,
    pub count: usize,
}

// Why a call is refused, in the order of the "Call numbers": "A run meets 1-6, a take-back 1 and 7, a confirmation 1."
#[derive(Clone, Copy, Debug, PartialEq, Eq)]
pub enum Refused {
    NotSound,
    UnknownArgument,
    ScriptLength,
    ResponseShort,
    JournalFull,
    NoTemplate,
    NothingOnTrial,
}

impl Refused {
    // Returns the call number that stands for it.
    fn number(self) -> usize
        ensures { (result ≡ number_of self) × (result < 256) }
    {
        match self {
            Refused::NotSound => 1,
            Refused::UnknownArgument => 2,
            Refused::ScriptLength => 3,
            Refused::ResponseShort => 4,
            Refused::JournalFull => 5,
            Refused::NoTemplate => 6,
            Refused::NothingOnTrial => 7,
        }
    }
}

// A call's answer in the paper's numbers: the call number, 0 where it was accepted, the length of the answer, and the count of commands.
#[derive(Clone, Copy, Debug, PartialEq, Eq)]
pub struct Answer {
    pub number: usize,
    pub length: usize,
    pub count: usize,
}

impl From<Result<Done, Refused>> for Answer {
    ghost from_gives = { λ given answer. answer ≡ answer_of given };

    fn from(given: Result<Done, Refused>) -> Answer {
        match given {
            Ok(done) => Answer {
                number: 0,
                length: done.length,
                count: done.count,
            },
            Err(e) => Answer {
                number: e.number(),
                length: 0,
                count: 0,
            },
        }
    }
}

// Runs a script where no number refuses it, and writes its answer to the front of `response`. Returns the answer's length and the count of
// commands.
pub fn run(
    call: Call,
    script: &[u8],
    response: &mut [u8],
    card: &mut LentCard<'_>,
) -> Result<Done, Refused>
    ensures ran { (spec.gives (answer_of result) (held card.new) response.new ≡ spec.run (spec.arguments_of call script.now response.old) (held card.old))
        × AnswerFits (answer_of result) }
    ensures stays { StaysLent card.old card.new }
{
    match start_of(call, script, response.len(), card)? {
        Start::Compact => Ok(run_compact(call, script, response, card)),
        Start::Expanded(Template::Definite(at, end)) => {
            Ok(run_value(true, at, end, call, script, response, card))
        }
        Start::Expanded(Template::Indefinite(at, end)) => {
            Ok(run_value(false, at, end, call, script, response, card))
        }
    }
}

// Takes the newest script back where no number refuses it.
pub fn take_back(card: &mut LentCard<'_>) -> Result<Done, Refused>
    ensures taken_back { (spec.gives (answer_of result) (held card.new) [] ≡ spec.take_back (held card.old)) × AnswerFits (answer_of result) }
    ensures stays { StaysLent card.old card.new }
{
    let table = &mut *card.table;
    let files = &mut *card.files;
    let journal = &mut *card.journal;
    if !journal::sound::sound_card(table, files, journal) {
        return Err(Refused::NotSound);
    }
    if journal::read::head_of(journal).scripts == 0 {
        return Err(Refused::NothingOnTrial);
    }
    journal::back::take_back(card);
    Ok(Done {
        length: 0,
        count: 0,
    })
}

// Confirms all scripts where no number refuses it. Table and file memory are lent to be read alone, so there is no `LentCard`.
pub fn confirm(table: &[u8], files: &[u8], journal: &mut [u8]) -> Result<Done, Refused>
    ensures { (spec.gives (answer_of result) (lent table.now files.now journal.new) [] ≡ spec.confirm (lent table.now files.now journal.old)) × AnswerFits (answer_of result) }
{
    if !journal::sound::sound_card(table, files, journal) {
        return Err(Refused::NotSound);
    }
    journal::back::confirm(journal);
    Ok(Done {
        length: 0,
        count: 0,
    })
}
