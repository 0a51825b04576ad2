// Appending to the journal, and writing with it.
ghost use Rattle.std.specs.Prelude.{◌≡◌, ◌+◌, ◌≤◌, ◌<◌, length};
ghost use Rattle.octets.specs.Bytes.{part, overwrite};
ghost use Rattle.journal.specs.Entries.{entry_bytes, entry_of, head_of, head_bytes, scripts_on_trial, tail};
ghost use Rattle.journal.specs.Promised.{HasRoom, WriteAsks};
ghost use Rattle.journal.specs.Changes.{head_after, kind_for, marked, pushed};

use crate::read::head_of;
use crate::{
    HEAD_SIZE, HOLDS_FILE_BYTES, HOLDS_TABLE_BYTE, Head, MARKS_START, Memory, entry_bytes,
};

// Returns the eight bytes of a tail.
fn tail_bytes(kind: u8, place: usize, n: usize) -> [u8; 8]
    ensures { result ≡ tail kind place n }
{
    let [place_high, place_low] = octets::bytes2(place);
    let [high, low] = octets::bytes2(n);
    [kind, 0, place_high, place_low, high, low, 0, 0]
}

// Closes the entry whose n old bytes stand after those that the head counts: writes its tail, then the head, and returns the new
// head.
fn close(journal: &mut [u8], head: Head, kind: u8, place: usize, n: usize) -> Head
    requires { 4 + head.used + entry_bytes n ≤ length journal.old }
    ensures { (journal.new ≡ overwrite (overwrite journal.old (4 + head.used + n) (tail kind place n)) 0 (head_bytes (head_after head (entry_bytes n)))) × (result ≡ head_after head (entry_bytes n)) }
{
    let tail = tail_bytes(kind, place, n);
    octets::copy(journal, HEAD_SIZE + head.used + n, &tail);
    let used = head.used + entry_bytes(n);
    octets::put_head(journal, used, head.scripts, head.flag);
    Head {
        used,
        scripts: head.scripts,
        flag: head.flag,
    }
}

// Appends a script's mark: there is one script more on trial after it.
pub fn mark(journal: &mut [u8])
    requires { HasRoom journal.old (entry_bytes 0) × (scripts_on_trial journal.old + 1 < 256) }
    ensures { journal.new ≡ marked journal.old }
{
    let head = head_of(journal);
    let next = Head {
        used: head.used,
        scripts: head.scripts + 1,
        flag: head.flag,
    };
    close(journal, next, MARKS_START as u8, 0, 0);
}

// Returns the kind of entry that holds a memory's old bytes.
fn kind_for(which: Memory) -> u8
    ensures { result ≡ kind_for which }
{
    match which {
        Memory::Files => HOLDS_FILE_BYTES as u8,
        Memory::Table => HOLDS_TABLE_BYTE as u8,
    }
}

// Writes new bytes at an offset in a part of a memory, given by its start and size: the journal gets the old bytes, their tail and the head
// before the part gets the new bytes. Returns the journal's head after it.
pub fn write(
    memory: &mut [u8],
    journal: &mut [u8],
    head: Head,
    which: Memory,
    start: usize,
    size: usize,
    offset: usize,
    new: &[u8],
) -> Head
    requires { WriteAsks memory.old journal.old head start size offset (length new.now) }
    ensures { (memory.new ≡ overwrite memory.old (start + offset) new.now)
        × (journal.new ≡ pushed journal.old (scripts_on_trial journal.old) (entry_of (kind_for which) (start + offset) (part memory.old (start + offset) (length new.now))))
        × (result ≡ head_of journal.new) }
{
    let place = start + offset;
    let kind = kind_for(which);
    octets::copy(
        journal,
        HEAD_SIZE + head.used,
        &memory[place..place + new.len()],
    );
    let next = close(journal, head, kind, place, new.len());
    octets::copy(&mut memory[start..start + size], offset, new);
    next
}
