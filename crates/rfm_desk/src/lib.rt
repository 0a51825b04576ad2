// The C boundary of the desk: the builder and the reader over numbers and slices alone, as include/rfm_desk.h declares them.
#![tactic(auto)]

ghost use Rattle.std.specs.Prelude.{◌≡◌, ◌<◌, ◌^◌};
ghost use Rattle.operations.specs.Builds.{build};
ghost use Rattle.rfm_desk.specs.Packed as spec;

use answers::read_answer;
use answers::results::{Piece, result_at};
use boundary::packed;

// The bytes of an answer that is read at most.
const MOST_ANSWER: usize = 16777215;

// Writes the script of a list of operations to the front of `script`. Returns the refusal, the number of operations or of the one at fault,
// and the script's length in one number.
#[unsafe(no_mangle)]
pub extern "C" fn rfm_build(format: u8, operations: &[u8], data: &[u8], script: &mut [u8]) -> u64
    ensures { spec.crosses result script.new ≡ spec.across (build format operations.now «data».now script.old) }
{
    let b = operations::in_numbers(operations::build(format, operations, data, script));
    packed(b.refusal, b.operations, b.length)
}

// Returns in one number whether an answer could be read, its count, and the place of its first result or of its first bad byte.
#[unsafe(no_mangle)]
#[tactic(auto, unfolding(answers::specs::Promised::AnsweredFits))]
pub extern "C" fn rfm_read_answer(format: u8, answer: &[u8]) -> u64
    ensures { (result ≡ spec.packed_parts (spec.answer_parts format answer.now)) × (spec.parts_in result ≡ spec.answer_parts format answer.now) }
{
    if MOST_ANSWER < answer.len() {
        return packed(2, 0, 0);
    }
    match read_answer(format, answer) {
        Ok(s) => packed(0, s.count, s.first),
        Err(place) => packed(1, 0, place),
    }
}

// Returns a word, the number of its data bytes and their place in one number.
#[tactic(auto, unfolding(crate::specs::Packed::packed_shown))]
fn packed_result(word: usize, count: usize, place: usize) -> u64
    requires { (word < 2 ^ 16) × (count < 2 ^ 16) × (place < 2 ^ 32) }
    ensures { result ≡ spec.packed_shown (spec.shown word count place) }
{
    word as u64 + (65536 * (count as u64) + 4294967296 * (place as u64))
}

// Returns the result that stands at a place of an answer, in one number: its word, the number of its data bytes and their place; or the code
// of a Bad format TLV; or 0 where no whole result stands there.
#[unsafe(no_mangle)]
#[tactic(auto, unfolding(answers::specs::Promised::ToldFits))]
pub extern "C" fn rfm_result(format: u8, answer: &[u8], place: usize) -> u64
    ensures { (result ≡ spec.packed_shown (spec.result_parts format answer.now place)) × (spec.shown_in result ≡ spec.result_parts format answer.now place) }
{
    if MOST_ANSWER < answer.len() {
        return packed_result(0, 0, 0);
    }
    match result_at(format, answer, place, answer.len()) {
        Some(Piece::Result(word, from, count)) => packed_result(word, count, from),
        Some(Piece::BadFormat(code, _)) => packed_result(code, 0, 0),
        None => packed_result(0, 0, 0),
    }
}
