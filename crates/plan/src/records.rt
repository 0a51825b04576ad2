// The record that a command names. The number 0 stands for none, as in the session, which keeps it: an Option would be turned back into
// that number at once, and no file has record 0 (`has_record`).
ghost use Rattle.std.specs.Prelude.{◌≡◌, ◌≤◌};
ghost use Rattle.plan.specs.Files as spec;
ghost use Rattle.plan.specs.Plans.{named_by};

use card::Row;
use card::records::record_count;
use command::Command;
use command::instruction::SEARCH;

// "P2 02 next, 03 previous (P1 00), 04 absolute"
pub const MODE_NEXT: usize = 2;

pub const MODE_PREVIOUS: usize = 3;

pub const MODE_ABSOLUTE: usize = 4;

// Returns the record after the current one, or 0 where there is none.
#[tactic(auto, unfolding(crate::specs::Files::next_record, octets::specs::Choice::pick))]
fn next_record(r: Row, number: usize) -> usize
    requires { 1 ≤ r.record_length }
    ensures { result ≡ spec.next_record r number }
{
    if number < record_count(r) {
        return number + 1;
    }
    if r.kind == card::CYCLIC {
        return 1;
    }
    0
}

// Returns the record before the current one, or 0 where there is none.
#[tactic(auto, unfolding(crate::specs::Files::previous_record, octets::specs::Choice::pick))]
fn previous_record(r: Row, number: usize) -> usize
    requires { 1 ≤ r.record_length }
    ensures { result ≡ spec.previous_record r number }
{
    if number == 0 {
        return record_count(r);
    }
    if number == 1 {
        if r.kind == card::CYCLIC {
            return record_count(r);
        }
        return 0;
    }
    number - 1
}

// Returns the record that P1 names, or the current one for 00.
#[tactic(auto, unfolding(crate::specs::Files::absolute_record, octets::specs::Choice::pick))]
fn absolute_record(p1: usize, number: usize) -> usize
    ensures { result ≡ spec.absolute_record p1 number }
{
    if p1 == 0 {
        return number;
    }
    p1
}

// Returns the record that a record command names, from the current record number.
#[tactic(auto, unfolding(crate::specs::Plans::named_by, crate::specs::Files::named_record, octets::specs::Choice::pick))]
pub fn record_of(c: Command, number: usize, r: Row) -> usize
    requires { 1 ≤ r.record_length }
    ensures { result ≡ named_by c number r }
{
    if c.instruction == SEARCH {
        return absolute_record(c.p1, number);
    }
    if c.p2 == MODE_NEXT {
        return next_record(r, number);
    }
    if c.p2 == MODE_PREVIOUS {
        return previous_record(r, number);
    }
    absolute_record(c.p1, number)
}

// Returns the record number after B2 or DC named a record.
#[tactic(auto, unfolding(crate::specs::Files::number_after, octets::specs::Choice::pick))]
pub(crate) fn number_after(p2: usize, number: usize, named: usize) -> usize
    ensures { result ≡ spec.number_after p2 number named }
{
    if p2 == MODE_ABSOLUTE {
        return number;
    }
    named
}

// Returns whether a file has the record of a number.
#[tactic(auto, unfolding(crate::specs::Files::has_record))]
pub fn has_record(r: Row, number: usize) -> bool
    requires { 1 ≤ r.record_length }
    ensures { result ≡ spec.has_record r number }
{
    1 <= number && number <= record_count(r)
}
