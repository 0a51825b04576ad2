// Deciding a command: the first check that fails, or what the instruction does, if the journal has room for it.
#![tactic(auto)]

mod checks;
mod file;

ghost use Rattle.std.specs.Prelude.{◌≡◌, List, ℕ, ◌<◌, length};
ghost use Rattle.card.specs.Row.{lent};
ghost use Rattle.journal.specs.Changes.{cost};
ghost use Rattle.session.specs.Session.{most_waiting};
ghost use Rattle.plan.specs.Plans.{Situation};
ghost use Rattle.decide.specs.Order.{select_checks};
ghost use Rattle.decide.specs.Fails.{first_failing};
ghost use Rattle.decide.specs.Decisions.{situation, decided, planned};
ghost use Rattle.plan.specs.Promised.{writes_of, plan_of, Fits, CostOfAsks};
ghost use Rattle.decide.specs.Promised.{OfSelect, roomed, responded, DecideSelectAsks, WithRoomAsks, DecideAsks, Decided};

use crate::checks::{formal_check, path_length_fits, unknown_check};
use crate::file::{OnCard, decide_on_file};
use command::checks::Check;
use command::instruction::{
    ACTIVATE, DEACTIVATE, GET_RESPONSE, INCREASE, READ_BINARY, READ_RECORD, SEARCH, SELECT,
    UPDATE_BINARY, UPDATE_RECORD,
};
use command::{Asked, Command, Format};
use journal::entry_bytes;
use plan::does::select_entry;
use plan::{Change, Decision, failed, waited};
use session::Standing;

// Returns what is decided of GET RESPONSE, after the formal checks.
#[tactic(auto, unfolding(crate::specs::Promised::responded, plan::specs::Plans::get_response, octets::specs::Choice::pick))]
fn get_response(c: Command, s: Standing) -> Decision
    ensures { ((«data» bytes : List ℕ) → plan_of result «data» bytes ≡ responded c s) × (result.change ≡ Change.Nothing) }
{
    let valid = s.valid as usize;
    let kept = s.word as usize;
    if valid == 0 {
        return failed(s, Check::NothingWaits);
    }
    if valid < c.p3 {
        return failed(s, Check::MoreThanWaits);
    }
    if c.p3 == 0 {
        return waited(s, kept, valid);
    }
    waited(s, kept, c.p3)
}

// Returns what is decided of SELECT, after the formal checks.
fn decide_select(
    format: Format,
    c: Command,
    data: &[u8],
    s: Standing,
    table: &[u8],
    made: &mut [u8; 255],
) -> Decision
    requires { DecideSelectAsks table.now «data».now s c }
    ensures { ((w : Situation) → OfSelect format c «data».now s table.now w → plan_of result «data».now made.new ≡ decided w (first_failing w select_checks)) × (result.change ≡ Change.Nothing) }
{
    if !path_length_fits(c.p1, data.len()) {
        return failed(s, Check::WrongPathLength);
    }
    let Some(e) = session::select::find(table, s.root as usize, s.directory as usize, c.p1, data)
    else {
        return failed(s, Check::NotFound);
    };
    select_entry(format, s, c.p2, e, card::row_at(table, e), made)
}

// Returns how many journal bytes a change takes, with `lc` data bytes.
#[tactic(auto, unfolding(plan::specs::Promised::CostOfAsks, plan::specs::Promised::writes_of, plan::specs::Promised::record_writes, journal::specs::Changes::cost))]
fn cost_of(change: Change, lc: usize) -> usize
    requires { (lc < 256) × CostOfAsks change }
    ensures { ((«data» bytes : List ℕ) → length «data» ≡ lc → length bytes ≡ most_waiting → result ≡ cost (writes_of change «data» bytes)) × (result < 65536) }
{
    match change {
        Change::Nothing => 0,
        Change::Content(_, _, _) => entry_bytes(lc),
        Change::DataRecord(_) => entry_bytes(lc) + entry_bytes(1),
        Change::SumRecord(r) => entry_bytes(r.record_length) + entry_bytes(1),
        Change::TableByte(_, _) => entry_bytes(1),
    }
}

// Returns a decision, or 6581 where the journal has no room for what it writes.
#[tactic(auto, unfolding(crate::specs::Promised::roomed, plan::specs::Promised::plan_of, octets::specs::Choice::pick))]
fn with_room(d: Decision, s: Standing, lc: usize, used: usize, room: usize) -> Decision
    requires { WithRoomAsks d.change lc used room }
    ensures { ((«data» bytes : List ℕ) → length «data» ≡ lc → length bytes ≡ most_waiting → plan_of result «data» bytes ≡ roomed used room s (plan_of d «data» bytes)) × ((t f : ℕ) → Fits t f lc d.change → Fits t f lc result.change) }
{
    let change = d.change;
    if room < used + cost_of(change, lc) {
        return failed(s, Check::JournalFull);
    }
    d
}

// Returns what is decided of a command in a session on a card, with its data; what it makes is put at the start of `made`. The card is lent to
// be read alone, so there is no `LentCard`.
pub fn decide(
    asked: Asked<'_>,
    s: Standing,
    table: &[u8],
    files: &[u8],
    journal: &[u8],
    made: &mut [u8; 255],
) -> Decision
    requires { DecideAsks (lent table.now files.now journal.now) s asked.command (length asked.«data».now) }
    ensures { Decided (lent table.now files.now journal.now) asked.entry.«data».now made.new (planned (situation asked.entry.format asked.entry.domain asked.entry.command asked.entry.«data».now s (lent table.now files.now journal.now))) result }
{
    let format = asked.format;
    let domain = asked.domain;
    let c = asked.command;
    let data = asked.data;
    let lc = data.len();
    let on_card = OnCard {
        asked,
        session: s,
        table,
        files,
        journal,
    };
    match c.instruction {
        SELECT => match formal_check::<SELECT>(c, lc, domain) {
            Ok(()) => decide_select(format, c, data, s, table, made),
            Err(k) => failed(s, k),
        },
        GET_RESPONSE => match formal_check::<GET_RESPONSE>(c, lc, domain) {
            Ok(()) => get_response(c, s),
            Err(k) => failed(s, k),
        },
        READ_BINARY => decide_on_file::<READ_BINARY>(on_card, made),
        UPDATE_BINARY => decide_on_file::<UPDATE_BINARY>(on_card, made),
        READ_RECORD => decide_on_file::<READ_RECORD>(on_card, made),
        UPDATE_RECORD => decide_on_file::<UPDATE_RECORD>(on_card, made),
        SEARCH => decide_on_file::<SEARCH>(on_card, made),
        INCREASE => decide_on_file::<INCREASE>(on_card, made),
        DEACTIVATE => decide_on_file::<DEACTIVATE>(on_card, made),
        ACTIVATE => decide_on_file::<ACTIVATE>(on_card, made),
        _ => failed(s, unknown_check(c)),
    }
}
