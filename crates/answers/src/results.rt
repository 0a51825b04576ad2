// One result of an answer: an R-APDU or a Bad format TLV.
ghost use Rattle.std.specs.Prelude.{◌≡◌, true, ◌≤◌, ◌<◌, length};
ghost use Rattle.std.specs.Result.{result_ok};
ghost use Rattle.answers.specs.Results as spec;
ghost use Rattle.answers.specs.Promised.{SizedFits, ToldFits};

use crate::words::{Words, has_data, word_at};
use tlv::lengths::{LENGTH_MISSING, Length, code_of, length_at};

// Where the one word of a compact answer stands, and where its data begin.
pub const COMPACT_WORD: usize = 1;

pub const COMPACT_DATA: usize = 3;

// The most data of a compact answer.
pub const MOST_DATA: usize = 256;

// What stands at a place: an R-APDU (its word, where its data begin and how many there are), or a Bad format TLV (its code and where that
// stands).
#[derive(Clone, Copy)]
pub enum Piece {
    Result(usize, usize, usize),
    BadFormat(usize, usize),
}

// Returns the place where the reading of a length at `at` stops that ends in a code.
#[tactic(auto, using(octets::proofs::Picks::choices, crate::proofs::Places::no_byte), unfolding(crate::specs::Results::length_stop, crate::specs::Results::form_bytes))]
fn length_stop(answer: &[u8], at: usize, code: usize) -> usize
    requires { at ≤ length answer.now }
    ensures { result ≡ spec.length_stop answer.now at code }
{
    if code == LENGTH_MISSING {
        return answer.len();
    }
    if answer.len() <= at {
        return at;
    }
    let first = octets::wide(answer[at]);
    if first == 0x81 {
        return at + 1;
    }
    if first == 0x82 {
        return at + 2;
    }
    at
}

// Returns the length that stands at the place `at`, and where its value begins; in AB the value does not pass `end`. Or the place where
// the reading stops.
#[tactic(auto, using(octets::proofs::Picks::choices), unfolding(crate::specs::Results::sized_at, crate::specs::Results::sized_by, tlv::specs::Promised::LengthFits, crate::specs::Promised::SizedFits))]
pub(crate) fn sized_at(
    answer: &[u8],
    definite: bool,
    end: usize,
    at: usize,
) -> Result<(usize, usize), usize>
    requires { at ≤ length answer.now }
    ensures { (result ≡ spec.sized_at answer.now definite end at) × SizedFits (length answer.now) at result }
{
    let l = length_at(answer, at, answer.len());
    let Length::Found(n, from) = l else {
        return Err(length_stop(answer, at, code_of(l)));
    };
    if !definite | (from + n <= end) {
        return Ok((n, from));
    }
    Err(from - 1)
}

// Returns the words that an R-APDU of so many data bytes can end with.
#[tactic(auto, using(octets::proofs::Picks::choices), unfolding(crate::specs::Results::words_behind))]
fn words_behind(count: usize) -> Words
    ensures { result ≡ spec.words_behind count }
{
    if count == 0 {
        return Words::Expanded;
    }
    Words::WithData
}

// Returns the R-APDU whose data and word are the n bytes from the place `from` on.
#[tactic(auto, using(octets::proofs::Picks::choices), unfolding(crate::specs::Results::rapdu_of, crate::specs::Results::rapdu_ends))]
fn rapdu_of(answer: &[u8], n: usize, from: usize) -> Result<Piece, usize>
    requires { (1 ≤ from) × (from ≤ length answer.now) × (n < 65536) }
    ensures { result ≡ spec.rapdu_of answer.now (Ok (n, from)) }
{
    if n < 2 {
        return Err(from - 1);
    }
    let count = n - 2;
    let word = word_at(words_behind(count), answer, from + count)?;
    Ok(Piece::Result(word, from, count))
}

// Returns the Bad format TLV whose value is the n bytes from the place `from` on.
#[tactic(auto, using(octets::proofs::Picks::choices), unfolding(crate::specs::Results::bad_format_of))]
fn bad_format_of(answer: &[u8], n: usize, from: usize) -> Result<Piece, usize>
    requires { 1 ≤ from }
    ensures { result ≡ spec.bad_format_of answer.now (Ok (n, from)) }
{
    if n != 1 {
        return Err(from - 1);
    }
    if answer.len() <= from {
        return Err(answer.len());
    }
    let code = octets::wide(answer[from]);
    if (1 <= code) & (code <= 3) {
        return Ok(Piece::BadFormat(code, from));
    }
    Err(from)
}

// Returns what a tag, 23 or 90, begins whose value is the n bytes from the place `from` on.
#[tactic(auto, using(octets::proofs::Picks::choices), unfolding(crate::specs::Results::value_of))]
fn value_of(answer: &[u8], tag: usize, n: usize, from: usize) -> Result<Piece, usize>
    requires { (1 ≤ from) × (from ≤ length answer.now) × (n < 65536) }
    ensures { result ≡ spec.value_of answer.now tag (Ok (n, from)) }
{
    if tag == 0x23 {
        return rapdu_of(answer, n, from);
    }
    bad_format_of(answer, n, from)
}

// Returns what stands at the place `at` of an answer: in AB it is more than the last byte before `end`.
#[tactic(auto, using(octets::proofs::Picks::choices), unfolding(crate::specs::Results::piece_at, crate::specs::Results::value_of, crate::specs::Results::rapdu_of, crate::specs::Results::bad_format_of, crate::specs::Promised::SizedFits))]
pub(crate) fn piece_at(answer: &[u8], definite: bool, end: usize, at: usize) -> Result<Piece, usize>
    requires { at < length answer.now }
    ensures { result ≡ spec.piece_at answer.now definite end at }
{
    let tag = octets::wide(answer[at]);
    if (definite & (end <= at + 1)) | !((tag == 0x23) | (tag == 0x90)) {
        return Err(at);
    }
    let (n, from) = sized_at(answer, definite, end, at + 1)?;
    value_of(answer, tag, n, from)
}

// Returns whether `count` data bytes can stand behind a word of a compact answer.
#[tactic(auto, unfolding(crate::specs::Results::data_fit, plan::specs::Plans::most_read))]
fn data_fit(word: usize, count: usize) -> bool
    ensures { result ≡ spec.data_fit word count }
{
    (count == 0) | (has_data(word) & (count <= MOST_DATA))
}

// Returns the one result of a compact answer that ends at `end`, where its word stands at the place `at`.
#[tactic(auto, using(octets::proofs::Picks::choices), unfolding(crate::specs::Results::compact_at, crate::specs::Results::compact_told))]
fn compact_at(answer: &[u8], at: usize, end: usize) -> Option<Piece>
    ensures { result ≡ spec.compact_at answer.now at end }
{
    if at != COMPACT_WORD {
        return None;
    }
    let word = word_at(Words::Compact, answer, COMPACT_WORD).ok()?;
    if end < COMPACT_DATA {
        return None;
    }
    let count = end - COMPACT_DATA;
    if data_fit(word, count) {
        return Some(Piece::Result(word, COMPACT_DATA, count));
    }
    None
}

// Returns the result of an expanded answer that stands at the place `at`, before `end`.
#[tactic(auto, using(crate::proofs::Places::past_bad))]
fn expanded_at(answer: &[u8], at: usize, end: usize) -> Option<Piece>
    ensures { result ≡ result_ok (spec.piece_at answer.now true end at) }
{
    if answer.len() <= at {
        return None;
    }
    piece_at(answer, true, end, at).ok()
}

// Returns the whole result that stands at the place `at` of an answer of a format whose results end at `end`; None where none does.
pub fn result_at(format: u8, answer: &[u8], at: usize, end: usize) -> Option<Piece>
    ensures { (result ≡ spec.result_at format answer.now at end) × ToldFits (length answer.now) at result }
{
    if answer.len() < end {
        return None;
    }
    if format == 0 {
        return compact_at(answer, at, end);
    }
    if format == 1 {
        return expanded_at(answer, at, end);
    }
    None
}
