// The soundness of table and file memory, for slices of any length and content.
ghost use Rattle.std.specs.Prelude.{◌≡◌, ◌<◌};
ghost use Rattle.card.specs.Row.{entries, row_of};
ghost use Rattle.card.specs.Promised.{earlier_sound};
ghost use Rattle.card.specs.Sound.{entry_sound, entries_sound, pairs_sound, sound_table};

use crate::rules::{name_sound, own_sound, pair_sound, place_sound, root_sound};
use crate::{ENTRY_SIZE, entries, row_at};

// "The table has 1 to 64 entries"; "File memory has 1 to 32,768 bytes."
const MOST_ENTRIES: usize = 64;

const MOST_FILE_BYTES: usize = 32768;

// Returns whether entry e is sound where it stands, over a file memory of `files` bytes.
#[tactic(auto, unfolding(crate::specs::Sound::entry_sound, octets::specs::Choice::pick))]
fn entry_sound(table: &[u8], files: usize, e: usize) -> bool
    requires { e < entries table.now }
    ensures { result ≡ entry_sound files e (row_of table.now (row_of table.now e).parent) (row_of table.now e) }
{
    let r = row_at(table, e);
    if e == 0 {
        return own_sound(files, r) & root_sound(r);
    }
    let up = r.parent;
    if e <= up {
        return false;
    }
    let parent = row_at(table, up);
    own_sound(files, r) & (place_sound(e, parent, r) & name_sound(r))
}

// Returns whether each entry of a table is sound where it stands, over a file memory of `files` bytes.
fn entries_sound(table: &[u8], files: usize) -> bool
    ensures { result ≡ entries_sound (entries table.now) files (row_of table.now) }
{
    (0..entries(table)).all(|e| entry_sound(table, files, e))
}

// Returns whether entry e is sound beside each entry before it.
fn earlier_sound(table: &[u8], e: usize) -> bool
    requires { e < entries table.now }
    ensures { result ≡ earlier_sound table.now e }
{
    let r = row_at(table, e);
    (0..e).all(|d| pair_sound(row_at(table, d), r))
}

// Returns whether every two entries of a table are sound beside each other.
fn pairs_sound(table: &[u8]) -> bool
    ensures { result ≡ pairs_sound (entries table.now) (row_of table.now) }
{
    (0..entries(table)).all(|e| earlier_sound(table, e))
}

// Returns whether a table is sound over a file memory.
pub fn sound_table(table: &[u8], files: &[u8]) -> bool
    ensures { result ≡ sound_table table.now files.now }
{
    if table.len() % ENTRY_SIZE != 0 {
        return false;
    }
    let n = entries(table);
    if n < 1 {
        return false;
    }
    if MOST_ENTRIES < n {
        return false;
    }
    if files.len() < 1 {
        return false;
    }
    if MOST_FILE_BYTES < files.len() {
        return false;
    }
    if !entries_sound(table, files.len()) {
        return false;
    }
    pairs_sound(table)
}
