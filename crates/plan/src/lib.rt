// What a command comes to: what its instruction does, before anything is stored.
#![tactic(auto)]

pub mod does;
pub mod records;
pub mod search;
mod sum;

ghost use Rattle.std.specs.Prelude.{◌≡◌, List, ℕ, ◌≤◌, ◌<◌, length};
ghost use Rattle.octets.specs.Bytes.{overwrite};
ghost use Rattle.session.specs.Session.{most_waiting};
ghost use Rattle.plan.specs.Ends as spec;
ghost use Rattle.plan.specs.Files as files-spec;
ghost use Rattle.plan.specs.Promised.{writes_of, plan_of};

use command::checks::Check;
use command::ends::BYTES_WAIT;
use command::{Format, Outcome};
use session::Standing;

// A new record of a cyclic file: the file's entry number, start, size and record length, and the oldest place.
#[derive(Clone, Copy)]
pub struct NewRecord {
    pub entry: usize,
    pub start: usize,
    pub size: usize,
    pub record_length: usize,
    pub place: usize,
}

// What a command writes: nothing; its data into a file (its start and size) at an offset; its data, or the sum at the start of what it
// made, as a new record; or a byte of the table at a place.
#[derive(Clone, Copy)]
pub enum Change {
    Nothing,
    Content(usize, usize, usize),
    DataRecord(NewRecord),
    SumRecord(NewRecord),
    TableByte(usize, usize),
}

// The session after a command, how it ends, how many bytes it made that go to the waiting ones, and what it writes.
#[derive(Clone, Copy)]
pub struct Decision {
    pub session: Standing,
    pub outcome: Outcome,
    pub made: u8,
    pub change: Change,
}

// Returns the entry number of the file that a command works on.
pub fn target(s: Standing) -> usize
    ensures { result ≡ files-spec.target s }
{
    s.file as usize
}

// Returns the decision of a command that ends with the word of a check that failed, changing nothing.
#[tactic(auto, unfolding(crate::specs::Promised::plan_of, crate::specs::Promised::writes_of, crate::specs::Ends::failed))]
pub fn failed(s: Standing, k: Check) -> Decision
    ensures { ((«data» bytes : List ℕ) → plan_of result «data» bytes ≡ spec.failed s k) × (result.change ≡ Change.Nothing) }
{
    Decision {
        session: s,
        outcome: Outcome::Error(k),
        made: 0,
        change: Change::Nothing,
    }
}

// Returns the decision of a command that ends well, with a word and no data.
#[tactic(auto, unfolding(crate::specs::Promised::plan_of, crate::specs::Promised::writes_of, crate::specs::Ends::done))]
fn done(s: Standing, word: usize, change: Change) -> Decision
    ensures { ((«data» bytes : List ℕ) → plan_of result «data» bytes ≡ spec.done s word (writes_of change «data» bytes)) × (result.change ≡ change) }
{
    let next = session::dropped(s);
    Decision {
        session: next,
        outcome: Outcome::Well(word),
        made: 0,
        change,
    }
}

// Returns the decision of a command that ends well, with the n bytes of the file memory from a place on.
#[tactic(auto, unfolding(crate::specs::Promised::plan_of, crate::specs::Promised::writes_of, crate::specs::Ends::handed))]
fn handed(s: Standing, word: usize, place: usize, n: usize) -> Decision
    ensures { ((«data» bytes : List ℕ) → plan_of result «data» bytes ≡ spec.handed s word place n) × (result.change ≡ Change.Nothing) }
{
    let next = session::dropped(s);
    Decision {
        session: next,
        outcome: Outcome::FromFiles(word, place, n),
        made: 0,
        change: Change::Nothing,
    }
}

// Returns the decision of a command that ends well, with the first n waiting bytes, and leaves the session as it is.
#[tactic(auto, unfolding(crate::specs::Promised::plan_of, crate::specs::Promised::writes_of))]
pub fn waited(s: Standing, word: usize, n: usize) -> Decision
    ensures { ((«data» bytes : List ℕ) → plan_of result «data» bytes ≡ spec.waited s word n) × (result.change ≡ Change.Nothing) }
{
    Decision {
        session: s,
        outcome: Outcome::FromWaiting(word, n),
        made: 0,
        change: Change::Nothing,
    }
}

// Returns the decision of a command that ends well, with n bytes that it made.
#[tactic(auto, using(crate::proofs::Made::taken), unfolding(crate::specs::Promised::plan_of, crate::specs::Promised::writes_of, crate::specs::Ends::produced))]
fn produced(format: Format, s: Standing, n: usize, word: usize, change: Change) -> Decision
    requires { (n ≤ most_waiting) × (word < 65536) }
    ensures { ((«data» bytes out rest : List ℕ) → bytes ≡ overwrite rest 0 out → n ≡ length out → plan_of result «data» bytes ≡ spec.produced format s word out (writes_of change «data» bytes)) × (result.change ≡ change) }
{
    match format {
        Format::Compact => {
            Decision {
                session: session::waits(s, n, word),
                outcome: Outcome::Well(BYTES_WAIT + n),
                made: n as u8,
                change,
            }
        }
        Format::Expanded => {
            Decision {
                session: session::dropped(s),
                outcome: Outcome::FromWaiting(word, n),
                made: n as u8,
                change,
            }
        }
    }
}
