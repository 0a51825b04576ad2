// The file commands: the first check that fails, or what the instruction does, if the journal has room for it.
ghost use Rattle.std.specs.Prelude.{◌≡◌, true, length};
ghost use Rattle.card.specs.Row.{HasEntry, row_of, lent};
ghost use Rattle.card.specs.Promised.{RowFits};
ghost use Rattle.plan.specs.Files as files-spec;
ghost use Rattle.decide.specs.Decisions.{situation, planned};
ghost use Rattle.decide.specs.Promised.{is_of_file, FileCommandAsks, DecideAsks, Unroomed, Decided};

use crate::checks::{file_check, formal_check};
use crate::with_room;
use card::Row;
use command::Asked;
use command::instruction::{
    DEACTIVATE, INCREASE, READ_BINARY, READ_RECORD, SEARCH, UPDATE_BINARY, UPDATE_RECORD,
};
use plan::{Decision, does, failed, target};
use session::Standing;

// Returns the row of the file that a command works on.
fn target_row(table: &[u8], s: Standing) -> Row
    requires { HasEntry table.now (files-spec.target s) }
    ensures { (result ≡ row_of table.now (files-spec.target s)) × RowFits result }
{
    card::row_at(table, target(s))
}

// What is asked in a session, on a lent card, as it is decided.
#[derive(Clone, Copy)]
pub struct OnCard<'a> {
    pub asked: Asked<'a>,
    pub session: Standing,
    pub table: &'a [u8],
    pub files: &'a [u8],
    pub journal: &'a [u8],
}

// Returns what is decided of a file command with the instruction I, but for the journal's room: the first check that fails, or what
// the instruction does, which puts what it makes at the start of `made`. The instruction is a constant, so that a compiler drops the
// tests that it settles: with the command's own number in its place UPDATEs of one byte took 1.49 times what the second program takes,
// and the limit is 1.25.
fn file_command<const I: usize>(a: OnCard, made: &mut [u8; 255]) -> Decision
    requires { FileCommandAsks a.table.now a.files.now a.session a.asked.command (length a.asked.«data».now) × (a.asked.command.instruction ≡ I) × (is_of_file I ≡ true) }
    ensures { Unroomed a.entry.asked.format a.entry.asked.domain a.entry.asked.command a.entry.asked.«data».now a.entry.session a.entry.table.now a.entry.files.now made.new result }
{
    let c = a.asked.command;
    let s = a.session;
    if let Err(k) = formal_check::<I>(c, a.asked.data.len(), a.asked.domain) {
        return failed(s, k);
    }
    let r = target_row(a.table, s);
    if let Err(k) = file_check::<I>(c, a.asked.data.len(), s, r) {
        return failed(s, k);
    }
    match I {
        READ_BINARY => does::read_binary(a.asked.format, c, s, r),
        UPDATE_BINARY => does::update_binary(c, s, r),
        READ_RECORD => does::read_record(c, s, r),
        UPDATE_RECORD => does::update_record(c, s, r),
        SEARCH => does::search_records(a.asked.format, c, a.asked.data, s, r, a.files, made),
        INCREASE => does::increase(a.asked.format, a.asked.data, s, r, a.files, made),
        DEACTIVATE => does::switch(card::DEACTIVATED, s),
        _ => does::switch(card::ACTIVATED, s),
    }
}

// Returns what is decided of a file command with the instruction I: of one that the journal has no room for, 6581.
pub fn decide_on_file<const I: usize>(a: OnCard, made: &mut [u8; 255]) -> Decision
    requires { DecideAsks (lent a.table.now a.files.now a.journal.now) a.session a.asked.command (length a.asked.«data».now) × (a.asked.command.instruction ≡ I) × (is_of_file I ≡ true) }
    ensures { Decided (lent a.entry.table.now a.entry.files.now a.entry.journal.now) a.entry.asked.«data».now made.new (planned (situation a.entry.asked.format a.entry.asked.domain a.entry.asked.command a.entry.asked.«data».now a.entry.session (lent a.entry.table.now a.entry.files.now a.entry.journal.now))) result }
{
    let used = journal::read::head_of(a.journal).used;
    let room = journal::read::room_of(a.journal);
    let d = file_command::<I>(a, made);
    with_room(d, a.session, a.asked.data.len(), used, room)
}
