// The line that is printed of a case.
ghost use Rattle.std.specs.Prelude.{◌≡◌, true, ◌+◌, ◌≤◌, min, length};
ghost use Rattle.octets.specs.Bytes.{overwrite};
ghost use Rattle.journal.specs.Entries.{used_bytes};
ghost use Rattle.journal.specs.Sound.{journal_length};
ghost use Rattle.cases.specs.Cases as spec;

use crate::input::case_of;
use engine::{Call, LONGEST_SCRIPT};
use journal::JOURNAL_LENGTH;
use lines::digits::decode;
use lines::put::{put_bytes, put_number};
use lines::worked::{LENT_RESPONSE, run_on_worked};

// Puts a label and four values at the start of `out`. Returns how many bytes they have.
fn put_labelled(
    out: &mut [u8],
    label: &[u8],
    refusal: usize,
    executed: usize,
    response: &[u8],
    journal: &[u8],
) -> usize
    requires { spec.PutLabelledAsks out.old label.now response.now journal.now }
    ensures { (out.new ≡ overwrite out.old 0 (spec.labelled label.now refusal executed response.now journal.now)) × (result ≡ length (spec.labelled label.now refusal executed response.now journal.now)) × (result ≤ spec.most_in_line) }
{
    octets::copy(out, 0, label);
    let second = put_number(out, label.len(), b": refusal=", refusal, b' ');
    let third = put_number(out, second, b"executed=", executed, b' ');
    let fourth = put_bytes(out, third, b"response=", response, b' ');
    put_bytes(out, fourth, b"journal=", journal, b'\n')
}

// Returns how many bytes a journal's head and entries have, or the whole journal where that would be more.
fn in_use(journal: &[u8]) -> usize
    requires { 4 ≤ length journal.now }
    ensures { (result ≡ min (4 + used_bytes journal.now) (length journal.now)) × (result ≤ length journal.now) }
{
    let n = 4 + journal::read::head_of(journal).used;
    n.min(journal.len())
}

// Runs a script on the worked card with another journal, and puts the run's line at the start of `out`. Returns how many bytes it has.
fn put_run(out: &mut [u8], label: &[u8], call: Call, journal: &mut [u8], script: &[u8]) -> usize
    requires { (spec.most_in_line ≤ length out.old) × (length label.now ≤ spec.longest_label) × (length journal.old ≡ journal_length) }
    ensures { (out.new ≡ overwrite out.old 0 (spec.run_line label.now (spec.ran_on call journal.old script.now))) × (result ≡ length (spec.run_line label.now (spec.ran_on call journal.old script.now))) × (result ≤ spec.most_in_line) }
{
    let mut response = [0u8; LENT_RESPONSE];
    let answer = run_on_worked(call, script, &mut response, journal);
    let n = answer.length;
    let k = in_use(journal);
    put_labelled(
        out,
        label,
        answer.number,
        answer.count,
        &response[..n],
        &journal[..k],
    )
}

// Puts the line of a case at the start of `out`. Returns how many bytes it has.
fn put_case(out: &mut [u8], label: &[u8], call: Call, journal: &[u8], script: &[u8]) -> usize
    requires { (spec.most_in_line ≤ length out.old) × (spec.is_case label.now journal.now script.now ≡ true) }
    ensures { (out.new ≡ overwrite out.old 0 (spec.case_line label.now call journal.now script.now)) × (result ≡ length (spec.case_line label.now call journal.now script.now)) × (result ≤ spec.most_in_line) }
{
    let mut journal_bytes = [0u8; JOURNAL_LENGTH];
    decode(journal, &mut journal_bytes);
    let mut script_bytes = [0u8; LONGEST_SCRIPT];
    let n = decode(script, &mut script_bytes);
    put_run(out, label, call, &mut journal_bytes, &script_bytes[..n])
}

// Puts what is printed of a line at the start of `out`: the line of its case, or that it has not the shape of one. Returns how many
// bytes it has.
pub fn put_line(out: &mut [u8], line: &[u8]) -> usize
    requires { spec.most_in_line ≤ length out.old }
    ensures { (out.new ≡ overwrite out.old 0 (spec.printed line.now)) × (result ≡ length (spec.printed line.now)) × (result ≤ spec.most_in_line) }
{
    let Some(case) = case_of(line) else {
        octets::copy(out, 0, b"case=bad\n");
        return 9;
    };
    put_case(
        out,
        &line[..case.label],
        case.call,
        &line[case.journal..case.journal_end],
        &line[case.script..case.script_end],
    )
}
