// The rules of single entries and of pairs, on entries that were read.
ghost use Rattle.std.specs.Prelude.{◌≡◌};
ghost use Rattle.card.specs.Row.{is_directory, is_file, can_be_child};
ghost use Rattle.card.specs.Promised.{RowFits};
ghost use Rattle.card.specs.Sound.{root_sound, place_sound, name_sound, directory_sound, newest_sound, state_sound, records_sound, file_sound, zeros_sound, own_sound, named_apart, lie_apart, pair_sound};

use crate::{ACTIVATED, ADF, CYCLIC, DEACTIVATED, Row, TRANSPARENT};

// "Record files have record length 1 to 255 and 1 to 254 whole records"
const LONGEST_RECORD: usize = 255;

const MOST_RECORDS: usize = 254;

// Returns whether an entry is a directory, by its kind.
pub fn is_directory(r: Row) -> bool
    ensures { result ≡ is_directory r }
{
    (1 <= r.kind) & (r.kind <= 3)
}

// Returns whether an entry is a file, by its kind.
pub fn is_file(r: Row) -> bool
    ensures { result ≡ is_file r }
{
    (4 <= r.kind) & (r.kind <= 6)
}

// Returns whether an entry can be a directory's child, by its kind.
pub(crate) fn can_be_child(r: Row) -> bool
    ensures { result ≡ can_be_child r }
{
    !((r.kind == 0) | ((r.kind == 1) | (r.kind == 3)))
}

// Returns whether entry 0 has the kind, the identifier and the parent of the MF.
pub(crate) fn root_sound(r: Row) -> bool
    ensures { result ≡ root_sound r }
{
    (r.kind == 1) & ((r.identifier == 0x3F00) & (r.parent == 0))
}

// Returns whether the kind and the parent of entry e are sound, with the parent's row.
pub(crate) fn place_sound(e: usize, parent: Row, r: Row) -> bool
    ensures { result ≡ place_sound e parent r }
{
    (2 <= r.kind) & ((r.kind <= 6) & ((r.parent < e) & is_directory(parent)))
}

// Returns whether an entry's identifier, and an ADF's parent, are sound.
#[tactic(auto, unfolding(crate::specs::Sound::name_sound, octets::specs::Choice::pick))]
pub(crate) fn name_sound(r: Row) -> bool
    ensures { result ≡ name_sound r }
{
    if r.kind == ADF {
        return (r.parent == 0) & (r.identifier == 0x7FFF);
    }
    !((r.identifier == 0x3F00) | ((r.identifier == 0x3FFF) | (r.identifier == 0x7FFF)))
}

// Returns whether a directory's entry has zeros where it must, and the activated state.
fn directory_sound(r: Row) -> bool
    ensures { result ≡ directory_sound r }
{
    (r.start == 0)
        & ((r.size == 0)
            & ((r.record_length == 0)
                & ((r.newest == 0) & ((r.never == 0) & (r.state == ACTIVATED)))))
}

// Returns whether a value of byte 9, the place of the newest record, is sound.
#[tactic(auto, unfolding(crate::specs::Sound::newest_sound, octets::specs::Choice::pick))]
pub fn newest_sound(r: Row, place: usize) -> bool
    ensures { result ≡ newest_sound r place }
{
    let record = r.record_length;
    if r.kind == CYCLIC {
        if record == 0 {
            return false;
        }
        return place < r.size / record;
    }
    place == 0
}

// Returns whether a value of byte 10, a file's state, is sound.
pub fn state_sound(state: usize) -> bool
    ensures { result ≡ state_sound state }
{
    (state == DEACTIVATED) | (state == ACTIVATED)
}

// Returns whether a file's record length and record count are sound.
#[tactic(auto, unfolding(crate::specs::Sound::records_sound, octets::specs::Choice::pick))]
fn records_sound(r: Row) -> bool
    ensures { result ≡ records_sound r }
{
    let record = r.record_length;
    if r.kind == TRANSPARENT {
        return record == 0;
    }
    if record == 0 {
        return false;
    }
    let records = r.size / record;
    (record <= LONGEST_RECORD)
        & ((r.size % record == 0) & ((1 <= records) & (records <= MOST_RECORDS)))
}

// Returns whether what a file's entry holds is sound, over a file memory of `files` bytes.
#[tactic(auto, unfolding(crate::specs::Sound::file_sound))]
fn file_sound(files: usize, r: Row) -> bool
    requires { RowFits r }
    ensures { result ≡ file_sound files r }
{
    (1 <= r.size)
        & ((r.start + r.size <= files)
            & (records_sound(r)
                & (newest_sound(r, r.newest) & (state_sound(r.state) & (r.never < 32)))))
}

// Returns whether bytes 11 and 13-15 are zero.
fn zeros_sound(r: Row) -> bool
    ensures { result ≡ zeros_sound r }
{
    (r.eleven == 0) & ((r.thirteen == 0) & (r.fifteen == 0))
}

// Returns whether an entry is sound by itself, over a file memory of `files` bytes.
#[tactic(auto, unfolding(crate::specs::Sound::own_sound, octets::specs::Choice::pick))]
pub(crate) fn own_sound(files: usize, r: Row) -> bool
    requires { RowFits r }
    ensures { result ≡ own_sound files r }
{
    if is_directory(r) {
        return zeros_sound(r) & directory_sound(r);
    }
    zeros_sound(r) & file_sound(files, r)
}

// Returns whether two entries have different identifiers where they are children of one parent.
fn named_apart(a: Row, b: Row) -> bool
    ensures { result ≡ named_apart a b }
{
    if a.identifier != b.identifier {
        return true;
    }
    !((can_be_child(a) & can_be_child(b)) & (a.parent == b.parent))
}

// Returns whether two entries do not overlap in file memory.
fn lie_apart(a: Row, b: Row) -> bool
    requires { RowFits a × RowFits b }
    ensures { result ≡ lie_apart a b }
{
    if a.start + a.size <= b.start {
        return true;
    }
    b.start + b.size <= a.start
}

// Returns whether two entries are sound beside each other.
#[tactic(auto, unfolding(crate::specs::Sound::pair_sound))]
pub(crate) fn pair_sound(a: Row, b: Row) -> bool
    requires { RowFits a × RowFits b }
    ensures { result ≡ pair_sound a b }
{
    if !named_apart(a, b) {
        return false;
    }
    lie_apart(a, b)
}
