// One operation as a line of text.
ghost use Rattle.std.specs.Prelude.{◌≡◌, ◌≤◌, length};
ghost use Rattle.desk.specs.Asking as spec;
ghost use Rattle.desk.specs.Promised.{FieldsFit, LineFits};

use crate::fields::{Fields, offset_at, stands, way_at, which_at};
use lines::digits::{is_hex, plain_number};
use operations::rows::{
    INCREASE, READ, READ_RECORD, SEARCH, SELECT, UPDATE, UPDATE_RECORD, is_read,
};

// An operation that a line asks for: its kind, mode and number, how many bytes it has or wants, and where the digits of its bytes begin.
#[derive(Clone, Copy)]
pub struct Asking {
    pub kind: usize,
    pub mode: usize,
    pub number: usize,
    pub count: usize,
    pub from: usize,
}

// Returns the kind of operation that a line names; none where it names none.
#[tactic(auto, unfolding(crate::specs::Asking::kind_of, lines::specs::Digits::ascii, octets::specs::Choice::pick))]
fn kind_of(line: &[u8]) -> Option<usize>
    ensures { result ≡ spec.kind_of line.now }
{
    if stands(line, 0, b"select=") {
        return Some(SELECT);
    }
    if stands(line, 0, b"update=") {
        return Some(UPDATE);
    }
    if stands(line, 0, b"read=") {
        return Some(READ);
    }
    if stands(line, 0, b"update-record=") {
        return Some(UPDATE_RECORD);
    }
    if stands(line, 0, b"read-record=") {
        return Some(READ_RECORD);
    }
    if stands(line, 0, b"increase=") {
        return Some(INCREASE);
    }
    if stands(line, 0, b"search=") {
        return Some(SEARCH);
    }
    None
}

// Returns the fields of a line behind the name of its kind, but for the last.
#[tactic(auto, using(crate::proofs::Standing::fields_behind), unfolding(crate::specs::Asking::which_of, octets::specs::Choice::pick))]
fn which_of(kind: usize, line: &[u8]) -> Option<Fields>
    requires { Some kind ≡ spec.kind_of line.now }
    ensures { (result ≡ spec.which_of kind line.now) × FieldsFit 7 (length line.now) result }
{
    match kind {
        SELECT => Some(Fields {
            mode: 0,
            number: 0,
            at: 7,
        }),
        UPDATE => offset_at(line, 7),
        READ => offset_at(line, 5),
        UPDATE_RECORD => which_at(line, 14),
        READ_RECORD => which_at(line, 12),
        INCREASE => Some(Fields {
            mode: 0,
            number: 0,
            at: 9,
        }),
        SEARCH => way_at(line, 7),
        _ => None,
    }
}

// Returns an operation whose bytes are the digits from the place behind the fields to the line's end.
#[tactic(auto, using(lines::proofs::Reading::lent_rest), unfolding(crate::specs::Asking::with_bytes, octets::specs::Choice::pick))]
fn with_bytes(kind: usize, line: &[u8], fields: Fields) -> Option<Asking>
    requires { fields.at ≤ length line.now }
    ensures { result ≡ spec.with_bytes kind line.now fields }
{
    let at = fields.at;
    if !is_hex(&line[at..]) {
        return None;
    }
    Some(Asking {
        kind,
        mode: fields.mode,
        number: fields.number,
        count: (line.len() - at) / 2,
        from: at,
    })
}

// Returns a read of as many bytes as the last field says.
#[tactic(auto, using(lines::proofs::Reading::lent_rest), unfolding(crate::specs::Asking::with_count))]
fn with_count(kind: usize, line: &[u8], fields: Fields) -> Option<Asking>
    requires { fields.at ≤ length line.now }
    ensures { result ≡ spec.with_count kind line.now fields }
{
    let count = plain_number(&line[fields.at..])?;
    Some(Asking {
        kind,
        mode: fields.mode,
        number: fields.number,
        count,
        from: line.len(),
    })
}

// Returns the operation that a line asks for; none where it has another shape.
#[tactic(auto, using(crate::proofs::Naming::bytes_fit, crate::proofs::Naming::count_fits, crate::proofs::Naming::named), unfolding(crate::specs::Asking::line_of, octets::specs::Choice::pick))]
pub fn line_of(line: &[u8]) -> Option<Asking>
    ensures { (result ≡ spec.line_of line.now) × LineFits line.now result }
{
    let kind = kind_of(line)?;
    let fields = which_of(kind, line)?;
    if is_read(kind) {
        return with_count(kind, line, fields);
    }
    with_bytes(kind, line, fields)
}
