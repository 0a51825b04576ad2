// The fields of a line.
ghost use Rattle.std.specs.Prelude.{◌≡◌, ◌+◌, ◌≤◌, ◌<◌, length, drop};
ghost use Rattle.octets.specs.Bytes.{starts_with};
ghost use Rattle.desk.specs.Fields as spec;
ghost use Rattle.desk.specs.Promised.{FieldsFit};

use lines::digits::plain_number;
use lines::values::{value_at, value_end};
use operations::rows::{ABSOLUTE, BACKWARD, FORWARD, NEXT, PREVIOUS};

// The fields of a line but for the last: a mode, a number, and the place of what follows.
#[derive(Clone, Copy)]
pub struct Fields {
    pub mode: usize,
    pub number: usize,
    pub at: usize,
}

// Returns whether a name stands at the place `at` of a line.
#[tactic(auto, unfolding(lines::specs::Values::value_at, octets::specs::Choice::pick))]
pub fn stands(line: &[u8], at: usize, name: &[u8]) -> bool
    requires { 1 ≤ length name.now }
    ensures { result ≡ starts_with (drop at line.now) name.now }
{
    value_at(line, at, name, b'\n').is_some()
}

// Returns a mode with the number between the place `at` and the next comma, and the place behind that; none where another stands there.
#[tactic(auto, using(crate::proofs::Standing::number_some), unfolding(crate::specs::Fields::numbered, crate::specs::Fields::number_field, lines::specs::Values::before, octets::specs::Choice::pick))]
fn numbered(mode: usize, line: &[u8], at: usize) -> Option<Fields>
    requires { (mode < 256) × (at ≤ length line.now) }
    ensures { (result ≡ spec.numbered mode (spec.number_field line.now at)) × FieldsFit (at + 2) (length line.now) result }
{
    let end = value_end(line, at, b',');
    if line.len() <= end {
        return None;
    }
    let number = plain_number(&line[at..end])?;
    Some(Fields {
        mode,
        number,
        at: end + 1,
    })
}

// Returns the record that the field at the place `at` names: next, previous, or a number.
#[tactic(auto, using(crate::proofs::Standing::name_inside), unfolding(crate::specs::Fields::which_at, lines::specs::Digits::ascii, octets::specs::Choice::pick))]
pub fn which_at(line: &[u8], at: usize) -> Option<Fields>
    requires { at ≤ length line.now }
    ensures { (result ≡ spec.which_at line.now at) × FieldsFit (at + 2) (length line.now) result }
{
    if stands(line, at, b"next,") {
        return Some(Fields {
            mode: NEXT,
            number: 0,
            at: at + 5,
        });
    }
    if stands(line, at, b"previous,") {
        return Some(Fields {
            mode: PREVIOUS,
            number: 0,
            at: at + 9,
        });
    }
    numbered(ABSOLUTE, line, at)
}

// Returns the way of a search and its first record, from the two fields at the place `at`.
#[tactic(auto, using(crate::proofs::Standing::name_inside, crate::proofs::Standing::fields_behind), unfolding(crate::specs::Fields::way_at, lines::specs::Digits::ascii, octets::specs::Choice::pick))]
pub fn way_at(line: &[u8], at: usize) -> Option<Fields>
    requires { at ≤ length line.now }
    ensures { (result ≡ spec.way_at line.now at) × FieldsFit (at + 2) (length line.now) result }
{
    if stands(line, at, b"forward,") {
        return numbered(FORWARD, line, at + 8);
    }
    if stands(line, at, b"backward,") {
        return numbered(BACKWARD, line, at + 9);
    }
    None
}

// Returns the offset that the field at the place `at` names.
#[tactic(auto, unfolding(crate::specs::Fields::offset_at))]
pub fn offset_at(line: &[u8], at: usize) -> Option<Fields>
    requires { at ≤ length line.now }
    ensures { (result ≡ spec.offset_at line.now at) × FieldsFit (at + 2) (length line.now) result }
{
    numbered(0, line, at)
}
