// The instructions by their byte, and what the paper asks of each. They are numbers and no enum: a command has any byte there, of which the
// second check asks whether there is such an instruction.
ghost use Rattle.std.specs.Prelude.{◌≡◌, ◌≤◌};
ghost use Rattle.command.specs.Instructions as spec;

pub const SELECT: usize = 0xA4;

pub const READ_BINARY: usize = 0xB0;

pub const UPDATE_BINARY: usize = 0xD6;

pub const READ_RECORD: usize = 0xB2;

pub const UPDATE_RECORD: usize = 0xDC;

pub const SEARCH: usize = 0xA2;

pub const INCREASE: usize = 0x32;

pub const DEACTIVATE: usize = 0x04;

pub const ACTIVATE: usize = 0x44;

pub const GET_RESPONSE: usize = 0xC0;

// "P2 0C no data, 04 FCP."
pub const NO_DATA: usize = 0x0C;

pub const WITH_FCP: usize = 0x04;

// Returns whether an instruction carries data.
pub fn carries_data(i: usize) -> bool
    ensures { result ≡ spec.carries_data i }
{
    matches!(
        i,
        SELECT | UPDATE_BINARY | UPDATE_RECORD | SEARCH | INCREASE
    )
}

// Returns whether an instruction is an outgoing one.
pub fn is_outgoing(i: usize) -> bool
    ensures { result ≡ spec.is_outgoing i }
{
    matches!(i, READ_BINARY | READ_RECORD | GET_RESPONSE)
}

// Returns whether an instruction deactivates or activates.
pub fn is_switch(i: usize) -> bool
    ensures { result ≡ spec.is_switch i }
{
    matches!(i, DEACTIVATE | ACTIVATE)
}

// Returns whether there is such an instruction.
pub fn is_known(i: usize) -> bool
    ensures { result ≡ spec.is_known i }
{
    carries_data(i) || is_outgoing(i) || is_switch(i)
}

// Returns whether an instruction works on transparent files.
pub fn is_binary(i: usize) -> bool
    ensures { result ≡ spec.is_binary i }
{
    matches!(i, READ_BINARY | UPDATE_BINARY)
}

// Returns whether an instruction works on record files, INCREASE apart.
pub fn is_record(i: usize) -> bool
    ensures { result ≡ spec.is_record i }
{
    matches!(i, READ_RECORD | UPDATE_RECORD | SEARCH)
}

// Returns the class of an instruction.
#[tactic(auto, unfolding(crate::specs::Instructions::class_of, octets::specs::Choice::pick))]
pub fn class_of(i: usize) -> usize
    ensures { result ≡ spec.class_of i }
{
    if i == INCREASE {
        return 0x80;
    }
    0x00
}

// Returns the case that an instruction needs, with its P2.
#[tactic(auto, unfolding(crate::specs::Instructions::case_of, octets::specs::Choice::pick))]
pub fn case_of(i: usize, p2: usize) -> usize
    ensures { result ≡ spec.case_of i p2 }
{
    match i {
        DEACTIVATE | ACTIVATE => 1,
        READ_BINARY | READ_RECORD | GET_RESPONSE => 2,
        UPDATE_BINARY | UPDATE_RECORD => 3,
        SELECT if p2 == NO_DATA => 3,
        _ => 4,
    }
}

// Returns the NEVER bit that shuts an instruction out.
#[tactic(auto, unfolding(crate::specs::Instructions::never_bit, octets::specs::Choice::pick))]
pub fn never_bit(i: usize) -> usize
    ensures { (result ≡ spec.never_bit i) × (1 ≤ result) }
{
    match i {
        READ_BINARY | READ_RECORD | SEARCH => 1,
        UPDATE_BINARY | UPDATE_RECORD => 2,
        INCREASE => 4,
        DEACTIVATE => 8,
        _ => 16,
    }
}
