// The reader of answers: it reads an answer once, from front to back, and says the place of its first bad byte, which is the Err of each
// reading here; and the results of an answer one by one.
#![tactic(auto)]

pub mod results;
mod turns;
pub mod words;

ghost use Rattle.std.specs.Prelude.{◌≡◌, ◌≤◌, length};
ghost use Rattle.answers.specs.Answers as spec;
ghost use Rattle.answers.specs.Promised.{AnsweredFits};

use results::{COMPACT_DATA, COMPACT_WORD, MOST_DATA, sized_at};
use turns::turns_from;
use words::{Words, has_data, word_at};

// What a good answer comes to: its count, the place of its first result, and the place where its results end.
#[derive(Clone, Copy)]
pub struct Summary {
    pub count: usize,
    pub first: usize,
    pub end: usize,
}

// Returns what stands behind the word of a compact answer.
#[tactic(auto, using(octets::proofs::Picks::choices), unfolding(crate::specs::Answers::data_read, plan::specs::Plans::most_read))]
fn data_read(answer: &[u8], word: usize) -> Result<Summary, usize>
    requires { 1 ≤ length answer.now }
    ensures { result ≡ spec.data_read answer.now word }
{
    if (COMPACT_DATA < answer.len()) & !has_data(word) {
        return Err(COMPACT_DATA);
    }
    if COMPACT_DATA + MOST_DATA < answer.len() {
        return Err(COMPACT_DATA + MOST_DATA);
    }
    Ok(Summary {
        count: octets::wide(answer[0]),
        first: COMPACT_WORD,
        end: answer.len(),
    })
}

// Returns what reading a compact answer comes to.
#[tactic(auto, using(octets::proofs::Picks::choices, crate::proofs::Places::no_byte), unfolding(crate::specs::Answers::compact_read, crate::specs::Answers::word_read))]
fn compact_read(answer: &[u8]) -> Result<Summary, usize>
    ensures { result ≡ spec.compact_read answer.now }
{
    if answer.len() < 1 {
        return Err(0);
    }
    if answer[0] == 0 {
        return Err(0);
    }
    let word = word_at(Words::Compact, answer, COMPACT_WORD)?;
    data_read(answer, word)
}

// Returns what the results from the place `first` on come to, in a template AB whose value ends at `end` or in AF. An Option of end and count
// would be no plainer than `definite` beside them: most tests ask for one of the three, and each promise would turn it back.
#[tactic(auto, using(octets::proofs::Picks::choices), unfolding(crate::specs::Answers::results_read, crate::specs::Answers::answered_by))]
fn results_read(
    answer: &[u8],
    definite: bool,
    end: usize,
    count: usize,
    first: usize,
) -> Result<Summary, usize>
    requires { first ≤ length answer.now }
    ensures { result ≡ spec.results_read answer.now definite end count first }
{
    let t = turns_from(answer, definite, end, count, first)?;
    Ok(Summary {
        count: if definite { count } else { t.seen },
        first,
        end: t.at,
    })
}

// Returns what an answer comes to whose count has n bytes, 1 or 2, from the place `from` on, in a value that ends at `end`.
#[tactic(auto, using(octets::proofs::Picks::choices), unfolding(crate::specs::Answers::count_read))]
fn count_read(answer: &[u8], end: usize, n: usize, from: usize) -> Result<Summary, usize>
    ensures { result ≡ spec.count_read answer.now end n from }
{
    if answer.len() <= from {
        return Err(answer.len());
    }
    let high = octets::wide(answer[from]);
    if 0x80 <= high {
        return Err(from);
    }
    if n == 1 {
        return results_read(answer, true, end, high, from + 1);
    }
    if answer.len() <= from + 1 {
        return Err(answer.len());
    }
    if (high == 0) & (answer[from + 1] < 0x80) {
        return Err(from + 1);
    }
    results_read(answer, true, end, octets::num_at(answer, from), from + 2)
}

// Returns what an answer comes to whose count has n bytes from the place `from` on: 1 or 2.
#[tactic(auto, using(octets::proofs::Picks::choices), unfolding(crate::specs::Answers::count_sized))]
fn count_sized(answer: &[u8], end: usize, n: usize, from: usize) -> Result<Summary, usize>
    requires { 1 ≤ from }
    ensures { result ≡ spec.count_sized answer.now end (Ok (n, from)) }
{
    if (1 <= n) & (n <= 2) {
        return count_read(answer, end, n, from);
    }
    Err(from - 1)
}

// Returns what an answer comes to whose count stands at the place `at`, "80, length, count", in a value that ends at `end`.
#[tactic(auto, using(octets::proofs::Picks::choices, crate::proofs::Places::no_byte), unfolding(crate::specs::Answers::count_at, crate::specs::Answers::count_sized, crate::specs::Promised::SizedFits))]
fn count_at(answer: &[u8], end: usize, at: usize) -> Result<Summary, usize>
    ensures { result ≡ spec.count_at answer.now end at }
{
    if answer.len() <= at {
        return Err(at);
    }
    if (answer[at] != 0x80) | (at + 1 == end) {
        return Err(at);
    }
    let (n, from) = sized_at(answer, true, end, at + 1)?;
    count_sized(answer, end, n, from)
}

// Returns what an answer that begins with AB comes to.
#[tactic(auto, using(octets::proofs::Picks::choices), unfolding(crate::specs::Answers::definite_read, crate::specs::Answers::definite_sized, crate::specs::Promised::SizedFits))]
fn definite_read(answer: &[u8]) -> Result<Summary, usize>
    requires { 1 ≤ length answer.now }
    ensures { result ≡ spec.definite_read answer.now }
{
    let (n, from) = sized_at(answer, false, 0, 1)?;
    if n == 0 {
        return Err(from - 1);
    }
    count_at(answer, from + n, from)
}

// Returns what an answer that begins with AF comes to.
#[tactic(auto, using(octets::proofs::Picks::choices, crate::proofs::Places::no_byte), unfolding(crate::specs::Answers::indefinite_read))]
fn indefinite_read(answer: &[u8]) -> Result<Summary, usize>
    ensures { result ≡ spec.indefinite_read answer.now }
{
    if answer.len() < 2 {
        return Err(1);
    }
    if answer[1] != 0x80 {
        return Err(1);
    }
    results_read(answer, false, 0, 0, 2)
}

// Returns what reading an expanded answer comes to.
#[tactic(auto, using(octets::proofs::Picks::choices, crate::proofs::Places::no_byte), unfolding(crate::specs::Answers::expanded_read))]
fn expanded_read(answer: &[u8]) -> Result<Summary, usize>
    ensures { result ≡ spec.expanded_read answer.now }
{
    if answer.len() < 1 {
        return Err(0);
    }
    if answer[0] == 0xAB {
        return definite_read(answer);
    }
    if answer[0] == 0xAF {
        return indefinite_read(answer);
    }
    Err(0)
}

// Returns what reading an answer of a format comes to: 0 compact, 1 expanded, and no other has a good answer.
pub fn read_answer(format: u8, answer: &[u8]) -> Result<Summary, usize>
    ensures { (result ≡ spec.read_answer format answer.now) × AnsweredFits (length answer.now) result }
{
    if format == 0 {
        return compact_read(answer);
    }
    if format == 1 {
        return expanded_read(answer);
    }
    Err(0)
}
