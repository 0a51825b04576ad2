// Reading the line of a case.
ghost use Rattle.std.specs.Prelude.{◌≡◌};
ghost use Rattle.cases.specs.Cases as spec;

use engine::{Call, LONGEST_SCRIPT};
use journal::JOURNAL_LENGTH;
use lines::calls::call_at;
use lines::values::{hex_at, value_end};

// A case: where its label ends, what a run is called with, and where the digits of the journal and of the script begin and end.
#[derive(Clone, Copy)]
pub struct Case {
    pub label: usize,
    pub call: Call,
    pub journal: usize,
    pub journal_end: usize,
    pub script: usize,
    pub script_end: usize,
}

// The bytes that a label has at most.
const LONGEST_LABEL: usize = 64;

// Returns the case that a line asks for; none where the line has another shape.
#[tactic(auto, unfolding(crate::specs::Cases::case_of, crate::specs::Cases::case_behind, lines::specs::Values::then, lines::specs::Digits::ascii, octets::specs::Choice::pick,))]
pub fn case_of(line: &[u8]) -> Option<Case>
    ensures { (result ≡ spec.case_of line.now) × spec.AskedFits line.now result }
{
    let label = value_end(line, 0, b':');
    if LONGEST_LABEL < label {
        return None;
    }
    let (call, fourth) = call_at(line, label, b": application=", b' ')?;
    let (journal, journal_end) = hex_at(line, fourth, b"journal=", b' ', 2 * JOURNAL_LENGTH)?;
    let (script, script_end) = hex_at(line, journal_end, b" script=", b' ', 2 * LONGEST_SCRIPT)?;
    Some(Case {
        label,
        call,
        journal,
        journal_end,
        script,
        script_end,
    })
}
