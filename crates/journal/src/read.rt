// Reading the journal's head and, back from the end, its entries.
ghost use Rattle.std.specs.Prelude.{◌≡◌, ◌+◌, ◌≤◌, ◌<◌, length};
ghost use Rattle.journal.specs.Entries.{head_of, room, tail_in, tail_at, formed, readable};
ghost use Rattle.journal.specs.Sound.{mark_fits};
ghost use Rattle.journal.specs.Promised.{TailFits};

use crate::{HEAD_SIZE, Head, MOST_SCRIPTS, TAIL_SIZE, Tail, entry_bytes};

// Returns what the journal's head holds.
pub fn head_of(journal: &[u8]) -> Head
    requires { 4 ≤ length journal.now }
    ensures { (result ≡ head_of journal.now) × (result.used < 65536) }
{
    Head {
        used: octets::num_at(journal, 0),
        scripts: journal[2],
        flag: journal[3],
    }
}

// Returns the most that U, the number of used bytes, can be.
pub fn room_of(journal: &[u8]) -> usize
    requires { 4 ≤ length journal.now }
    ensures { result ≡ room journal.now }
{
    journal.len() - HEAD_SIZE
}

// Returns whether the journal has room for one more mark.
pub fn mark_fits(journal: &[u8]) -> bool
    requires { 4 ≤ length journal.now }
    ensures { result ≡ mark_fits journal.now }
{
    let head = head_of(journal);
    let scripts = octets::wide(head.scripts);
    (scripts < MOST_SCRIPTS) & (head.used + entry_bytes(0) <= room_of(journal))
}

// Returns what the eight bytes of a tail hold.
fn tail_of(bytes: &[u8]) -> Tail
    requires { length bytes.now ≡ 8 }
    ensures { (result ≡ tail_in bytes.now) × TailFits result }
{
    Tail {
        kind: octets::wide(bytes[0]),
        place: octets::num_at(bytes, 2),
        size: octets::num_at(bytes, 4),
    }
}

// Returns the tail that ends where the first u bytes of entries end.
pub(crate) fn tail_at(journal: &[u8], u: usize) -> Tail
    requires { (8 ≤ u) × (4 + u ≤ length journal.now) }
    ensures { (result ≡ tail_at journal.now u) × TailFits result }
{
    let at = HEAD_SIZE + u - TAIL_SIZE;
    tail_of(&journal[at..at + TAIL_SIZE])
}

// Returns whether eight bytes have the form of a tail: bytes 1, 6 and 7 are zero.
fn tail_formed(bytes: &[u8]) -> bool
    requires { length bytes.now ≡ 8 }
    ensures { result ≡ formed bytes.now }
{
    (bytes[1] == 0) & ((bytes[6] == 0) & (bytes[7] == 0))
}

// Returns whether a whole entry ends where the first u bytes of entries end.
pub(crate) fn is_readable(journal: &[u8], u: usize) -> bool
    requires { 4 + u ≤ length journal.now }
    ensures { result ≡ readable journal.now u }
{
    if u < TAIL_SIZE {
        return false;
    }
    let tail = tail_at(journal, u);
    if u < TAIL_SIZE + tail.size {
        return false;
    }
    let at = HEAD_SIZE + u - TAIL_SIZE;
    tail_formed(&journal[at..at + TAIL_SIZE])
}
