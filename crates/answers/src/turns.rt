// The results of an expanded answer, one after the other.
ghost use Rattle.std.specs.Prelude.{◌≡◌, ◌+◌, ◌≤◌, ◌<◌, length};
ghost use Rattle.octets.specs.Choice.{pick};
ghost use Rattle.answers.specs.Answers as spec;
ghost use Rattle.answers.specs.Promised.{TurnFits};

use crate::results::{Piece, piece_at};
use command::ends::goes_on;

// A reading of results on its way: its place, how many were read, and how many may still come (in AF: whether one may).
#[derive(Clone, Copy)]
pub struct Turn {
    pub at: usize,
    pub seen: usize,
    pub left: usize,
}

// Returns a reading that goes on behind a result.
#[tactic(auto, unfolding(crate::specs::Answers::went_on))]
fn went_on(t: Turn, place: usize, left: usize) -> Turn
    requires { t.seen < 9223372036854775808 }
    ensures { result ≡ spec.went_on t place left }
{
    Turn {
        at: place,
        seen: t.seen + 1,
        left,
    }
}

// Returns how many results may come behind one with a word, where `left` might come with it.
#[tactic(auto, using(octets::proofs::Picks::choices), unfolding(crate::specs::Answers::left_behind))]
fn left_behind(definite: bool, word: usize, left: usize) -> usize
    requires { 1 ≤ left }
    ensures { result ≡ spec.left_behind definite word left }
{
    if !goes_on(word) {
        return 0;
    }
    if definite {
        return left - 1;
    }
    left
}

// Returns what the reading comes to at the end of AB's value: a good end, or the place of a bad byte.
#[tactic(auto, using(octets::proofs::Picks::choices), unfolding(crate::specs::Answers::definite_end))]
fn definite_end(size: usize, end: usize, t: Turn) -> Result<Option<Turn>, usize>
    ensures { result ≡ spec.definite_end size end t }
{
    if ((t.seen == 0) & (0 < t.left)) | (end < size) {
        return Err(end);
    }
    Ok(None)
}

// Returns what the reading comes to at a 00 in a tag's place: a good end, or the place of a bad byte.
#[tactic(auto, using(octets::proofs::Picks::choices), unfolding(crate::specs::Answers::indefinite_end))]
fn indefinite_end(answer: &[u8], t: Turn) -> Result<Option<Turn>, usize>
    requires { t.at < length answer.now }
    ensures { result ≡ spec.indefinite_end answer.now t }
{
    let behind = t.at + 1;
    if answer.len() <= behind {
        return Err(behind);
    }
    if answer[behind] != 0 {
        return Err(behind);
    }
    if t.at + 2 < answer.len() {
        return Err(t.at + 2);
    }
    Ok(None)
}

// Returns the reading after one turn, in a template AB whose value ends at `end` or in AF: None where the results end well; or the place of
// a bad byte.
#[tactic(auto, using(octets::proofs::Picks::choices, crate::proofs::Places::piece_fits), unfolding(crate::specs::Answers::turned, crate::specs::Answers::turned_by, crate::proofs::Places::PieceFits))]
fn turned(answer: &[u8], definite: bool, end: usize, t: Turn) -> Result<Option<Turn>, usize>
    requires { TurnFits (length answer.now) t }
    ensures { result ≡ spec.turned answer.now definite end t }
{
    let at = t.at;
    if definite & (at == end) {
        return definite_end(answer.len(), end, t);
    }
    if answer.len() <= at {
        return Err(answer.len());
    }
    if !definite & (answer[at] == 0) {
        return indefinite_end(answer, t);
    }
    if t.left == 0 {
        return Err(at);
    }
    let next = match piece_at(answer, definite, end, at)? {
        Piece::Result(word, from, count) => {
            went_on(t, from + count + 2, left_behind(definite, word, t.left))
        }
        Piece::BadFormat(_, place) => went_on(t, place + 1, 0),
    };
    Ok(Some(next))
}

// Returns how many results may come in a template: AB says it, AF does not.
#[tactic(auto, using(octets::proofs::Picks::choices))]
fn first_left(definite: bool, count: usize) -> usize
    ensures { result ≡ pick definite count 1 }
{
    if definite {
        return count;
    }
    1
}

// Returns the turn at the end of all results from the place `first` on, in a template AB of a count whose value ends at `end` or in AF; or
// the place of the first bad byte.
pub fn turns_from(
    answer: &[u8],
    definite: bool,
    end: usize,
    count: usize,
    first: usize,
) -> Result<Turn, usize>
    requires { first ≤ length answer.now }
    ensures { result ≡ spec.turns_from (length answer.now + 1) answer.now definite end (spec.first_turn first (pick definite count 1)) }
{
    let mut t = Turn {
        at: first,
        seen: 0,
        left: first_left(definite, count),
    };
    while let Some(next) = turned(answer, definite, end, t)? {
        t = next;
    }
    Ok(t)
}
