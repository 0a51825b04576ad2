// SEARCH: the records are compared where they lie in the file memory.
ghost use Rattle.std.specs.Prelude.{◌≡◌, ◌+◌, ◌≤◌, ◌<◌, length};
ghost use Rattle.octets.specs.Bytes.{part, overwrite, contains};
ghost use Rattle.card.specs.Sound.{record_count};
ghost use Rattle.plan.specs.Files as spec;
ghost use Rattle.plan.specs.Promised.{Recorded, ToSearchAsks, SearchAsks};

use card::Row;
use card::records::{record_count, record_offset};

// "A2 SEARCH, P2 04 from record P1 .. to the last, 05 back to the first"
pub const SEARCH_FORWARD: usize = 4;

pub const SEARCH_BACKWARD: usize = 5;

// Returns whether a record of a file contains the data.
fn record_contains(files: &[u8], r: Row, number: usize, data: &[u8]) -> bool
    requires { Recorded (length files.now) r × (1 ≤ number) × (number ≤ record_count r) }
    ensures { result ≡ contains (spec.record_bytes r (part files.now r.start r.size) number) «data».now }
{
    let at = r.start + record_offset(r, number);
    let end = at + r.record_length;
    octets::within(&files[at..end], data)
}

// Notes a number at place n of `out` if it was found, and returns the place after the notes.
#[tactic(auto, unfolding(crate::specs::Files::noted, octets::specs::Choice::pick, octets::specs::Bytes::overwrite))]
fn note(out: &mut [u8], n: usize, number: usize, found: bool) -> usize
    requires { (n < length out.old) × (number < 256) }
    ensures { (out.new ≡ overwrite out.old n (spec.noted found number)) × (result ≡ n + length (spec.noted found number)) }
{
    if found {
        out[n] = number as u8;
        return n + 1;
    }
    n
}

// Returns the number of the record that is searched next.
#[tactic(auto, unfolding(crate::specs::Files::next_searched, octets::specs::Choice::pick))]
fn next_searched(p2: usize, number: usize) -> usize
    requires { (1 ≤ number) × (number < 256) }
    ensures { result ≡ spec.next_searched p2 number }
{
    if p2 == SEARCH_FORWARD {
        return number + 1;
    }
    number - 1
}

// Returns how many records are to be searched from a number on.
#[tactic(auto, unfolding(crate::specs::Files::to_search, octets::specs::Choice::pick))]
fn to_search(r: Row, p2: usize, number: usize) -> usize
    requires { ToSearchAsks r number }
    ensures { result ≡ spec.to_search r p2 number }
{
    if p2 == SEARCH_FORWARD {
        return record_count(r) + 1 - number;
    }
    number
}

// Puts the numbers of the records that contain the data, from record `from` on, at the start of `out`, and returns how many there
// are.
pub(crate) fn search(
    files: &[u8],
    r: Row,
    p2: usize,
    from: usize,
    data: &[u8],
    out: &mut [u8; 255],
) -> usize
    requires { SearchAsks files.now r from }
    ensures { (out.new ≡ overwrite out.old 0 (spec.found_records r (part files.now r.start r.size) p2 «data».now from))
        × (result ≡ length (spec.found_records r (part files.now r.start r.size) p2 «data».now from)) }
{
    let mut number: usize = from;
    let mut n: usize = 0;
    let left = to_search(r, p2, from);
    for _ in 0..left {
        let found = record_contains(files, r, number, data);
        n = note(out, n, number, found);
        number = next_searched(p2, number);
    }
    n
}
