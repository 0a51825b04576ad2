// When each check fails, and the first that does, in the paper's order.
ghost use Rattle.std.specs.Prelude.{◌≡◌, true, ◌≤◌, ◌<◌};
ghost use Rattle.card.specs.Row.{has_records};
ghost use Rattle.decide.specs.Fails as spec;
ghost use Rattle.decide.specs.Promised.{FirstOf, Formal, Bound, FileCheckAsks};
ghost use Rattle.decide.specs.Order.{bound_checks, formal_checks};

use card::Row;
use command::Command;
use command::checks::Check;
use command::instruction::{
    GET_RESPONSE, INCREASE, NO_DATA, READ_RECORD, SEARCH, SELECT, UPDATE_BINARY, UPDATE_RECORD,
    WITH_FCP, carries_data, case_of, class_of, is_binary, is_known, is_outgoing, is_record,
    is_switch, never_bit,
};
use plan::records::{MODE_ABSOLUTE, MODE_NEXT, MODE_PREVIOUS, has_record, record_of};
use plan::search::{SEARCH_BACKWARD, SEARCH_FORWARD};
use plan::target;
use session::Standing;

// "INCREASE, .. record length at most 127"
const LONGEST_INCREASE: usize = 127;

// Returns whether a command has the wrong case, or Lc 0 where it must carry data.
#[tactic(auto, unfolding(crate::specs::Fails::wrong_case, octets::specs::Choice::pick))]
fn wrong_case(i: usize, c: Command, lc: usize) -> bool
    requires { c.instruction ≡ i }
    ensures { result ≡ spec.wrong_case c lc }
{
    c.case != case_of(i, c.p2) || (carries_data(i) && lc == 0)
}

// Returns whether an instruction takes these P1 and P2.
#[tactic(auto, unfolding(crate::specs::Fails::parameters_fit, octets::specs::Choice::pick))]
fn parameters_fit(i: usize, p1: usize, p2: usize) -> bool
    ensures { result ≡ spec.parameters_fit i p1 p2 }
{
    if i == SELECT {
        return matches!(p1, 0x00 | 0x08 | 0x09) && matches!(p2, NO_DATA | WITH_FCP);
    }
    if is_binary(i) {
        return p1 <= 0x7F;
    }
    if i == SEARCH {
        return matches!(p2, SEARCH_FORWARD | SEARCH_BACKWARD);
    }
    if is_record(i) {
        return p2 == MODE_ABSOLUTE || (matches!(p2, MODE_NEXT | MODE_PREVIOUS) && p1 == 0x00);
    }
    p1 == 0x00 && p2 == 0x00
}

// Returns whether the access domain shuts an instruction out.
fn wrong_domain(i: usize, domain: usize) -> bool
    ensures { result ≡ spec.wrong_domain i domain }
{
    domain == 0xFF && i != GET_RESPONSE
}

// Meets the checks that every command meets, for a command with the instruction I and `lc` data bytes: the first that fails is the
// error.
#[tactic(auto, unfolding(crate::specs::Order::formal_checks, crate::specs::Fails::first_failing, crate::specs::Fails::fails, octets::specs::Choice::pick))]
pub fn formal_check<const I: usize>(c: Command, lc: usize, domain: usize) -> Result<(), Check>
    requires { c.instruction ≡ I }
    ensures { FirstOf formal_checks (Formal c lc domain) result }
{
    if !c.whole {
        return Err(Check::BrokenForm);
    }
    if !is_known(I) {
        return Err(Check::UnknownInstruction);
    }
    if c.class != class_of(I) {
        return Err(Check::WrongClass);
    }
    if is_outgoing(I) && c.after {
        return Err(Check::BytesAfter);
    }
    if wrong_case(I, c, lc) {
        return Err(Check::WrongCase);
    }
    if !parameters_fit(I, c.p1, c.p2) {
        return Err(Check::WrongParameters);
    }
    if wrong_domain(I, domain) {
        return Err(Check::WrongDomain);
    }
    Ok(())
}

// Returns the check that a command with an unknown instruction fails.
#[tactic(auto, unfolding(crate::specs::Fails::unknown_check, octets::specs::Choice::pick))]
pub fn unknown_check(c: Command) -> Check
    ensures { result ≡ spec.unknown_check c }
{
    if c.whole {
        return Check::UnknownInstruction;
    }
    Check::BrokenForm
}

// Returns whether SELECT with P1 takes n data bytes.
#[tactic(auto, unfolding(crate::specs::Fails::path_length_fits, octets::specs::Choice::pick))]
pub fn path_length_fits(p1: usize, n: usize) -> bool
    ensures { result ≡ spec.path_length_fits p1 n }
{
    if p1 == 0 {
        return n == 2;
    }
    n % 2 == 0 && (2..=16).contains(&n)
}

// Returns whether an instruction works on a file of this kind.
#[tactic(auto, unfolding(crate::specs::Fails::kind_fits, octets::specs::Choice::pick))]
fn kind_fits(i: usize, r: Row) -> bool
    ensures { result ≡ spec.kind_fits i r }
{
    if is_binary(i) {
        return r.kind == card::TRANSPARENT;
    }
    if is_record(i) {
        return matches!(r.kind, card::LINEAR | card::CYCLIC);
    }
    if i == INCREASE {
        return r.kind == card::CYCLIC && r.record_length <= LONGEST_INCREASE;
    }
    true
}

// Returns whether DC is put to a cyclic file outside mode 03.
fn wrong_mode(i: usize, p2: usize, r: Row) -> bool
    ensures { result ≡ spec.wrong_mode i p2 r }
{
    i == UPDATE_RECORD && r.kind == card::CYCLIC && p2 != MODE_PREVIOUS
}

// Returns whether the file is deactivated and this shuts the instruction out.
fn is_shut(i: usize, r: Row) -> bool
    ensures { result ≡ spec.is_shut i r }
{
    r.state == card::DEACTIVATED && !is_switch(i)
}

// Returns whether the file's NEVER bits shut an instruction out.
fn is_never(i: usize, r: Row) -> bool
    ensures { result ≡ spec.is_never i r }
{
    let bit = never_bit(i);
    r.never / bit % 2 == 1
}

// Returns whether an offset into a transparent file is not below its length.
fn offset_outside(i: usize, offset: usize, r: Row) -> bool
    ensures { result ≡ spec.offset_outside i offset r }
{
    is_binary(i) && r.size <= offset
}

// Returns whether a command names a record, from the current record number, that the file has not.
#[tactic(auto, using(crate::proofs::Order::record_kind), unfolding(crate::specs::Fails::no_record, octets::specs::Choice::pick))]
fn no_record(i: usize, c: Command, number: usize, r: Row) -> bool
    requires { (c.instruction ≡ i) × (has_records r ≡ true → 1 ≤ r.record_length) × (spec.kind_fits i r ≡ true) }
    ensures { result ≡ spec.no_record c number r }
{
    if !is_record(i) {
        return false;
    }
    if i == UPDATE_RECORD && r.kind == card::CYCLIC {
        return false;
    }
    !has_record(r, record_of(c, number, r))
}

// Returns whether an instruction takes these lengths against file or record.
#[tactic(auto, unfolding(crate::specs::Fails::length_fits, octets::specs::Choice::pick))]
fn length_fits(i: usize, offset: usize, p3: usize, lc: usize, r: Row) -> bool
    requires { (offset < 65536) × (lc < 65536) }
    ensures { result ≡ spec.length_fits i offset p3 lc r }
{
    if i == UPDATE_BINARY {
        return offset + lc <= r.size;
    }
    if i == READ_RECORD {
        return p3 == 0 || p3 == r.record_length;
    }
    if i == UPDATE_RECORD {
        return lc == r.record_length;
    }
    if matches!(i, SEARCH | INCREASE) {
        return lc <= r.record_length;
    }
    true
}

// Meets the checks on a file up to the lengths, for a command with the instruction I and `lc` data bytes, from where its session stands,
// on a file with the row r: the first that fails is the error.
#[tactic(auto, unfolding(crate::specs::Order::bound_checks, crate::specs::Fails::first_failing, crate::specs::Fails::fails, plan::specs::Plans::offset_of, octets::specs::Choice::pick))]
pub fn file_check<const I: usize>(c: Command, lc: usize, s: Standing, r: Row) -> Result<(), Check>
    requires { FileCheckAsks I c lc r }
    ensures { FirstOf bound_checks (Bound c lc s r) result }
{
    let offset = c.p1 * 256 + c.p2;
    if target(s) == 0 {
        return Err(Check::NoFile);
    }
    if !kind_fits(I, r) {
        return Err(Check::WrongKind);
    }
    if wrong_mode(I, c.p2, r) {
        return Err(Check::WrongMode);
    }
    if is_shut(I, r) {
        return Err(Check::Deactivated);
    }
    if is_never(I, r) {
        return Err(Check::Never);
    }
    if offset_outside(I, offset, r) {
        return Err(Check::OffsetOutside);
    }
    if no_record(I, c, s.record_number as usize, r) {
        return Err(Check::NoRecord);
    }
    if !length_fits(I, offset, c.p3, lc, r) {
        return Err(Check::WrongLength);
    }
    Ok(())
}
