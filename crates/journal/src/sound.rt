// The soundness of the journal beside a table and a file memory, for slices of any length and content.
ghost use Rattle.std.specs.Prelude.{◌≡◌, true, ◌+◌, ◌≤◌, ◌<◌, eqb, length};
ghost use Rattle.octets.specs.Choice.{pick};
ghost use Rattle.card.specs.Row.{lent};
ghost use Rattle.journal.specs.Entries.{marks_start, readable, entry_at, entries_back};
ghost use Rattle.journal.specs.Sound.{table_byte_sound, table_place_sound, form_sound, entry_sound, entries_sound, sound_journal, sound_card};

use crate::read::{head_of, is_readable, room_of, tail_at};
use crate::{
    HEAD_SIZE, HOLDS_FILE_BYTES, HOLDS_TABLE_BYTE, JOURNAL_LENGTH, MARKS_START, MOST_SCRIPTS,
    TAIL_SIZE,
};
use card::Row;

// "n 1 to 255"
const MOST_OLD_BYTES: usize = 255;

// Returns whether a journal entry may hold the old value `old` for byte `at` of the table entry with the row r.
fn table_byte_sound(r: Row, at: usize, old: usize) -> bool
    ensures { result ≡ table_byte_sound r at old }
{
    if at == card::STATE_BYTE {
        return card::rules::is_file(r) & card::rules::state_sound(old);
    }
    (at == card::NEWEST_BYTE) & ((r.kind == card::CYCLIC) & card::rules::newest_sound(r, old))
}

// Returns whether a journal entry may hold the old value `old` for the table byte at a place.
fn table_place_sound(table: &[u8], place: usize, old: usize) -> bool
    requires { place < 65536 }
    ensures { result ≡ table_place_sound table.now place old }
{
    let e = place / card::ENTRY_SIZE;
    if card::entries(table) <= e {
        return false;
    }
    let r = card::row_at(table, e);
    table_byte_sound(r, place % card::ENTRY_SIZE, old)
}

// Returns whether a journal entry is sound that has this kind, this place and n old bytes, the first of them `old`, beside a table
// and a file memory of `files` bytes.
fn form_sound(table: &[u8], files: usize, kind: usize, place: usize, n: usize, old: usize) -> bool
    requires { (place < 65536) × (n < 65536) }
    ensures { result ≡ form_sound table.now files kind place n old }
{
    if kind == MARKS_START {
        return (place == 0) & (n == 0);
    }
    if kind == HOLDS_FILE_BYTES {
        return (1 <= n) & ((n <= MOST_OLD_BYTES) & (place + n <= files));
    }
    if kind != HOLDS_TABLE_BYTE {
        return false;
    }
    if n != 1 {
        return false;
    }
    table_place_sound(table, place, old)
}

// Returns whether the entry that ends where the first u bytes of entries end is sound, beside a table and a file memory of `files`
// bytes.
fn entry_sound(table: &[u8], files: usize, journal: &[u8], u: usize) -> bool
    requires { (4 + u ≤ length journal.now) × (readable journal.now u ≡ true) }
    ensures { result ≡ entry_sound table.now files (entry_at journal.now u) }
{
    let tail = tail_at(journal, u);
    let n = tail.size;
    if n == 0 {
        return form_sound(table, files, tail.kind, tail.place, 0, 0);
    }
    let at = HEAD_SIZE + u - (TAIL_SIZE + n);
    let old = octets::wide(journal[at]);
    form_sound(table, files, tail.kind, tail.place, n, old)
}

// Returns 1 for the kind of a mark, and 0 for another.
fn one_if_mark(kind: usize) -> usize
    ensures { (result ≡ pick (eqb kind marks_start) 1 0) × (result ≤ 1) }
{
    if kind == MARKS_START {
        return 1;
    }
    0
}

// Returns whether the entries are sound, read back from the end of the `used` bytes: they fill these exactly, each is sound, the
// oldest is a mark, and there are as many marks as scripts on trial.
fn entries_sound(table: &[u8], files: usize, journal: &[u8], used: usize, scripts: usize) -> bool
    requires { 4 + used ≤ length journal.now }
    ensures { result ≡ entries_sound table.now files scripts (entries_back used journal.now used) }
{
    let mut u: usize = used;
    let mut marks: usize = 0;
    let mut oldest = true;
    // No `for`: each entry's own tail says how far the place goes back.
    while 0 < u {
        if !is_readable(journal, u) {
            return false;
        }
        if !entry_sound(table, files, journal, u) {
            return false;
        }
        let tail = tail_at(journal, u);
        oldest = tail.kind == MARKS_START;
        marks += one_if_mark(tail.kind);
        u -= TAIL_SIZE + tail.size;
    }
    oldest & (marks == scripts)
}

// Returns whether a journal is sound beside a table and a file memory.
fn sound_journal(table: &[u8], files: &[u8], journal: &[u8]) -> bool
    ensures { result ≡ sound_journal table.now files.now journal.now }
{
    if journal.len() != JOURNAL_LENGTH {
        return false;
    }
    let head = head_of(journal);
    if head.flag != 0 {
        return false;
    }
    let used = head.used;
    if room_of(journal) < used {
        return false;
    }
    let scripts = octets::wide(head.scripts);
    if MOST_SCRIPTS < scripts {
        return false;
    }
    if !octets::all_zero(&journal[HEAD_SIZE + used..]) {
        return false;
    }
    entries_sound(table, files.len(), journal, used, scripts)
}

// Returns whether a card is sound: its table over its file memory, and its journal beside them.
pub fn sound_card(table: &[u8], files: &[u8], journal: &[u8]) -> bool
    ensures { result ≡ sound_card (lent table.now files.now journal.now) }
{
    if !card::sound::sound_table(table, files) {
        return false;
    }
    sound_journal(table, files, journal)
}
