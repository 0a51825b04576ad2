// Taking the newest script back, and confirming all.
ghost use Rattle.std.specs.Prelude.{◌≡◌, true, ◌+◌, ◌≤◌, length, drop};
ghost use Rattle.octets.specs.Bytes.{zeros, all_zero};
ghost use Rattle.card.specs.Lent.{StaysLent, held};
ghost use Rattle.card.specs.Row.{lent};
ghost use Rattle.journal.specs.Entries.{used_bytes, scripts_on_trial, readable, entry_at, entries_back};
ghost use Rattle.journal.specs.Sound.{all_sound, marks, sound_card};
ghost use Rattle.journal.specs.Changes.{memory_of, memory_for, restore_one, restore, since_mark, behind_mark, bytes_taken, taken_back};

use crate::read::{head_of, tail_at};
use crate::{HEAD_SIZE, HOLDS_TABLE_BYTE, MARKS_START, TAIL_SIZE};
use card::lent::LentCard;

// Gives back the old bytes of the entry that ends where the first u bytes of entries end; they lie inside their memory.
fn restore_one(table: &mut [u8], files: &mut [u8], journal: &[u8], u: usize)
    requires { (4 + u ≤ length journal.now) × (readable journal.now u ≡ true)
        × ((entry_at journal.now u).place + length (entry_at journal.now u).old ≤ length (memory_of (memory_for (entry_at journal.now u)) (lent table.old files.old journal.now))) }
    ensures { lent table.new files.new journal.now ≡ restore_one (entry_at journal.now u) (lent table.old files.old journal.now) }
{
    let tail = tail_at(journal, u);
    let place = tail.place;
    let at = HEAD_SIZE + u - (TAIL_SIZE + tail.size);
    let end = at + tail.size;
    if tail.kind == HOLDS_TABLE_BYTE {
        octets::copy(table, place, &journal[at..end]);
        return;
    }
    octets::copy(files, place, &journal[at..end]);
}

// Gives entries back, newest first, to the newest mark, and returns how many bytes the entries take that are older than it.
fn restore_to_mark(table: &mut [u8], files: &mut [u8], journal: &[u8], used: usize) -> usize
    requires { (4 + used ≤ length journal.now) × (all_sound table.old (length files.old) (entries_back used journal.now used) ≡ true) × (1 ≤ marks (entries_back used journal.now used)) }
    ensures { (lent table.new files.new journal.now ≡ restore (since_mark (entries_back used journal.now used)) (lent table.old files.old journal.now))
        × (result ≡ bytes_taken (behind_mark (entries_back used journal.now used))) × (result + 8 ≤ used) }
{
    let mut u: usize = used;
    // No `for`: each entry's own tail says how far the place goes back.
    loop {
        let tail = tail_at(journal, u);
        if tail.kind == MARKS_START {
            return u - TAIL_SIZE;
        }
        restore_one(table, files, journal, u);
        u -= TAIL_SIZE + tail.size;
    }
}

// Takes back the newest script of a sound card: gives its entries back, writes the head, then zeros the freed bytes.
pub fn take_back(card: &mut LentCard<'_>)
    requires { (sound_card (held card.old) ≡ true) × (1 ≤ scripts_on_trial (held card.old).journal) }
    ensures taken_back { held card.new ≡ taken_back (held card.old) }
    ensures stays { StaysLent card.old card.new }
{
    // Taken apart, since the journal is only read while the others are written.
    let table = &mut *card.table;
    let files = &mut *card.files;
    let journal = &mut *card.journal;
    let head = head_of(journal);
    let u = restore_to_mark(table, files, journal, head.used);
    octets::put_head(journal, u, head.scripts - 1, 0);
    octets::fill(journal, HEAD_SIZE + u, head.used - u, 0);
}

// Confirms all scripts of a journal that is zero after its used bytes: zeros the head, then the used bytes.
pub fn confirm(journal: &mut [u8])
    requires { (4 + used_bytes journal.old ≤ length journal.old) × (all_zero (drop (4 + used_bytes journal.old) journal.old) ≡ true) }
    ensures { journal.new ≡ zeros (length journal.old) }
{
    let head = head_of(journal);
    octets::put_head(journal, 0, 0, 0);
    octets::fill(journal, HEAD_SIZE, head.used, 0);
}
