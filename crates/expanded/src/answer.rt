// Writing the answer: R-APDUs, Bad format TLVs and the count of commands.
ghost use Rattle.std.specs.Prelude.{◌≡◌, ◌+◌, ◌≤◌, ◌<◌, length};
ghost use Rattle.octets.specs.Bytes.{overwrite};
ghost use Rattle.command.specs.Outcomes.{word_of, data_of, data_count};
ghost use Rattle.command.specs.Promised.{OutcomeFits};
ghost use Rattle.step.specs.Limits.{longest_script, rapdu_size};
ghost use Rattle.expanded.specs.Expanded as spec;

use command::Outcome;
use command::ends::{data_count, put_data, word_of};
use tlv::lengths::put_length;

const RAPDU: u8 = 0x23;

const BAD_FORMAT: u8 = 0x90;

const DEFINITE: u8 = 0xAB;

const INDEFINITE: u8 = 0xAF;

const COUNT: u8 = 0x80;

// Writes the R-APDU of an outcome at the place `at`. Returns the place after it.
pub(crate) fn put_rapdu(
    out: &mut [u8],
    at: usize,
    o: Outcome,
    files: &[u8],
    waiting: &[u8; 255],
) -> usize
    requires { OutcomeFits (length files.now) o × (at + rapdu_size (data_count o) ≤ length out.old) }
    ensures { (out.new ≡ overwrite out.old at (spec.rapdu (data_of o files.now waiting.now) (word_of o))) × (result ≡ at + rapdu_size (data_count o)) }
{
    octets::fill(out, at, 1, RAPDU);
    let from = put_length(out, at + 1, data_count(o) + 2);
    let end = put_data(out, from, o, files, waiting);
    octets::put_num(out, end, word_of(o));
    end + 2
}

// Writes the Bad format TLV of a code at the place `at`. Returns the place after it.
pub(crate) fn put_bad(out: &mut [u8], at: usize, code: usize) -> usize
    requires { (at + 3 ≤ length out.old) × (code < 256) }
    ensures { (out.new ≡ overwrite out.old at (spec.bad_format code)) × (result ≡ at + length (spec.bad_format code)) }
{
    octets::copy(out, at, &[BAD_FORMAT, 1, code as u8]);
    at + 3
}

// Returns how many bytes the count `n` of commands takes in the answer.
fn count_size(n: usize) -> usize
    ensures { (result ≡ length (spec.count_bytes n)) × (result ≤ 2) }
{
    if n < 0x80 {
        return 1;
    }
    2
}

// Writes the count `n` of commands at the place `at`, as shortest signed integer. Returns the place after it.
fn put_count(out: &mut [u8], at: usize, n: usize) -> usize
    requires { at + 2 ≤ length out.old }
    ensures { (out.new ≡ overwrite out.old at (spec.count_bytes n)) × (result ≡ at + length (spec.count_bytes n)) }
{
    if n < 0x80 {
        octets::fill(out, at, 1, n as u8);
        return at + 1;
    }
    octets::put_num(out, at, n);
    at + 2
}

// Writes the answer to AA to the front of the response memory. Returns its length.
fn put_definite(response: &mut [u8], count: usize, rapdus: &[u8]) -> usize
    requires { (spec.room_to_answer ≤ length response.old) × (length rapdus.now ≤ spec.room_to_gather) }
    ensures { (response.new ≡ overwrite response.old 0 (spec.definite_answer count rapdus.now)) × (result ≡ length (spec.definite_answer count rapdus.now)) }
{
    let size = count_size(count);
    octets::fill(response, 0, 1, DEFINITE);
    let at = put_length(response, 1, 2 + (size + rapdus.len()));
    octets::copy(response, at, &[COUNT, size as u8]);
    let from = put_count(response, at + 2, count);
    octets::copy(response, from, rapdus);
    from + rapdus.len()
}

// Writes the answer to AE to the front of the response memory. Returns its length.
fn put_indefinite(response: &mut [u8], rapdus: &[u8]) -> usize
    requires { (spec.room_to_answer ≤ length response.old) × (length rapdus.now ≤ spec.room_to_gather) }
    ensures { (response.new ≡ overwrite response.old 0 (spec.indefinite_answer rapdus.now)) × (result ≡ length (spec.indefinite_answer rapdus.now)) }
{
    let n = rapdus.len();
    octets::copy(response, 0, &[INDEFINITE, 0x80]);
    octets::copy(response, 2, rapdus);
    octets::fill(response, 2 + n, 2, 0);
    2 + n + 2
}

// Writes the answer to the front of the response memory, from the count of commands and the gathered R-APDUs. Returns its length.
pub fn put_answer(response: &mut [u8], definite: bool, count: usize, gathered: &[u8]) -> usize
    requires { (spec.room_to_answer ≤ length response.old) × (length gathered.now ≤ spec.room_to_gather) × (count ≤ longest_script) }
    ensures { (response.new ≡ overwrite response.old 0 (spec.answer_bytes definite count gathered.now)) × (result ≡ length (spec.answer_bytes definite count gathered.now)) }
{
    if definite {
        return put_definite(response, count, gathered);
    }
    put_indefinite(response, gathered)
}
