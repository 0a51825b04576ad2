// What the program `read` prints.
ghost use Rattle.std.specs.Prelude.{◌≡◌, ◌+◌, ◌*◌, ◌≤◌, ◌<◌, length};
ghost use Rattle.octets.specs.Bytes.{overwrite, part};
ghost use Rattle.answers.specs.Told.{replied, bad_format, told_from};
ghost use Rattle.answers.specs.Results.{result_at};
ghost use Rattle.answers.specs.Answers.{read_answer};
ghost use Rattle.desk.specs.Reads as spec;
ghost use Rattle.desk.specs.Promised.{longest_answer, most_told, ShowAsks, ShownFits};

use crate::builds::put_bad_line;
use answers::read_answer;
use answers::results::{Piece, result_at};
use lines::digits::decode;
use lines::put::{put_bytes, put_number};
use lines::values::{hex_at, number_at};

// The digits that an answer has at most.
const MOST_DIGITS: usize = 131072;

// The signs that are read at most: one more than the longest text of the right shape has.
pub const MOST_READ: usize = 131090;

// The signs that are printed at most.
pub const MOST_PRINTED: usize = 64 + 5 * 65536;

// How a printing of results goes on: the place of the next one in the answer, none at the end, and the place behind what is printed.
#[derive(Clone, Copy)]
pub struct Shown {
    pub next: Option<usize>,
    pub to: usize,
}

// Puts the two lines of an R-APDU at the place `to`. Returns the place behind them.
fn put_result(word: usize, data: &[u8], out: &mut [u8], to: usize) -> usize
    requires { (word < 65536) × (to + 2 * length «data».now + 18 ≤ length out.old) }
    ensures { (out.new ≡ overwrite out.old to (spec.reply_lines (replied word «data».now))) × (result ≡ to + 2 * length «data».now + 18) }
{
    let status = (word as u16).to_be_bytes();
    let second = put_bytes(out, to, b"status=", &status, b'\n');
    put_bytes(out, second, b"data=", data, b'\n')
}

// Puts the line of a Bad format TLV at the place `to`. Returns the place behind it.
#[tactic(auto, unfolding(crate::specs::Reads::reply_lines, lines::specs::Digits::ascii))]
fn put_code(code: usize, out: &mut [u8], to: usize) -> usize
    requires { (code < 256) × (to + 8 ≤ length out.old) }
    ensures { (out.new ≡ overwrite out.old to (spec.reply_lines (bad_format code))) × (result ≡ to + 8) }
{
    put_bytes(out, to, b"code=", &[code as u8], b'\n')
}

// Puts the lines of a result, an R-APDU whose data are the `count` bytes of the answer from `from` on, at the place `to`. Returns how the
// printing goes on behind it.
fn show_result(
    answer: &[u8],
    word: usize,
    from: usize,
    count: usize,
    out: &mut [u8],
    to: usize,
) -> Shown
    requires { ShowAsks answer.now word from count out.old to }
    ensures { (out.new ≡ overwrite out.old to (spec.reply_lines (replied word (part answer.now from count)))) × (result ≡ spec.shown (Some (from + count + 2)) (to + 2 * count + 18)) }
{
    let behind = from + count;
    let next = put_result(word, &answer[from..behind], out, to);
    Shown {
        next: Some(behind + 2),
        to: next,
    }
}

// Puts the lines of the result at the place `place` of an answer, which ends at `end`, at the place `to`. Returns how the printing goes on
// behind it.
#[tactic(auto, unfolding(crate::specs::Reads::shown_lines, crate::specs::Reads::shown_next))]
fn show_next(
    format: u8,
    answer: &[u8],
    place: usize,
    end: usize,
    out: &mut [u8],
    to: usize,
) -> Shown
    requires { ShownFits answer.now out.old place to }
    ensures { (out.new ≡ overwrite out.old to (spec.shown_lines (result_at format answer.now place end) answer.now)) × (result ≡ spec.shown_next (result_at format answer.now place end) to) }
{
    match result_at(format, answer, place, end) {
        Some(Piece::Result(word, from, count)) => show_result(answer, word, from, count, out, to),
        Some(Piece::BadFormat(code, _)) => {
            Shown {
                next: None,
                to: put_code(code, out, to),
            }
        }
        None => Shown { next: None, to },
    }
}

// Puts the lines of all results of an answer from the place `first` on, which end at `end`, at the place `to`. Returns the place behind them.
fn put_results(
    format: u8,
    answer: &[u8],
    first: usize,
    end: usize,
    out: &mut [u8],
    to: usize,
) -> usize
    requires { ShownFits answer.now out.old first to }
    ensures { (out.new ≡ overwrite out.old to (spec.all_lines (told_from (length answer.now) format answer.now first end))) × (result ≡ to + length (spec.all_lines (told_from (length answer.now) format answer.now first end))) × (result ≤ most_told) }
{
    let mut s = Shown {
        next: Some(first),
        to,
    };
    while let Some(place) = s.next {
        s = show_next(format, answer, place, end, out, s.to);
    }
    s.to
}

// Puts the count of an answer and the lines of its results, which begin at `first` and end at `end`, at the start of `out`. Returns the place
// behind them.
fn put_read(
    format: u8,
    answer: &[u8],
    count: usize,
    first: usize,
    end: usize,
    out: &mut [u8],
) -> usize
    requires { (first ≤ length answer.now) × (length answer.now ≤ longest_answer) × (most_told ≤ length out.old) }
    ensures { (out.new ≡ overwrite out.old 0 (spec.read_lines format answer.now count first end)) × (result ≡ length (spec.read_lines format answer.now count first end)) × (result ≤ most_told) }
{
    let to = put_number(out, 0, b"count=", count, b'\n');
    put_results(format, answer, first, end, out, to)
}

// Puts what is printed of an answer at the start of `out`. Returns how many signs it has.
fn put_answered(format: u8, answer: &[u8], out: &mut [u8]) -> usize
    requires { (length answer.now ≤ longest_answer) × (most_told ≤ length out.old) }
    ensures { (out.new ≡ overwrite out.old 0 (spec.answered_lines format answer.now (read_answer format answer.now))) × (result ≡ length (spec.answered_lines format answer.now (read_answer format answer.now))) × (result ≤ most_told) }
{
    match read_answer(format, answer) {
        Ok(s) => put_read(format, answer, s.count, s.first, s.end, out),
        Err(place) => put_number(out, 0, b"place=", place, b'\n'),
    }
}

// Puts what is printed for a text at the start of `out`. Returns how many signs it has.
pub fn print(text: &[u8], out: &mut [u8]) -> usize
    requires { most_told ≤ length out.old }
    ensures { (out.new ≡ overwrite out.old 0 (spec.told text.now)) × (result ≡ length (spec.told text.now)) × (result ≤ most_told) }
{
    let Some((format, second)) = number_at(text, 0, b"format=", b'\n', 10, 1, 1) else {
        return put_bad_line(out, 1);
    };
    let Some((from, to)) = hex_at(text, second, b"answer=", b'\n', MOST_DIGITS) else {
        return put_bad_line(out, 2);
    };
    if to + 1 < text.len() {
        return put_bad_line(out, 3);
    }
    let mut answer = [0u8; 65536];
    let n = decode(&text[from..to], &mut answer);
    put_answered(format as u8, &answer[..n], out)
}
