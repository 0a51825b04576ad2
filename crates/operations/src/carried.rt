// Whether a format carries an operation, and what a list comes to.
ghost use Rattle.std.specs.Prelude.{◌≡◌, true, ◌&&◌, ◌||◌, ◌<◌, eqb, length};
ghost use Rattle.operations.specs.Rows.{select, update, read, update_record, is_list, operations_of, RowFits};
ghost use Rattle.operations.specs.Sizes.{Measures};
ghost use Rattle.operations.specs.Carried as spec;

use crate::Refusal;
use crate::rows::{
    ABSOLUTE, BACKWARD, FORWARD, INCREASE, NEXT, Operation, PREVIOUS, READ, READ_RECORD, SEARCH,
    SELECT, UPDATE, UPDATE_RECORD, operation_at, operations_in,
};
use crate::sizes::written_size;
use command::Format;

// The largest number that a byte of a command holds.
const MOST_IN_BYTE: usize = 0xFF;

// The largest offset.
const MOST_OFFSET: usize = 0x7FFF;

// The bytes of the longest path: 8 identifiers.
const LONGEST_PATH: usize = 16;

// Returns the format of a number, 0 compact and 1 expanded. No other carries an operation: the first of a list is at fault.
#[tactic(auto, using(octets::proofs::Picks::choices), unfolding(crate::specs::Carried::format_of))]
pub fn format_of(number: u8) -> Result<Format, Refusal>
    ensures { result ≡ spec.format_of number }
{
    match number {
        0 => Ok(Format::Compact),
        1 => Ok(Format::Expanded),
        _ => Err(Refusal::NotCarried(1)),
    }
}

// Returns whether mode and number name a record: next or previous with no number, or the one of a number.
#[tactic(auto, using(octets::proofs::Picks::choices), unfolding(crate::specs::Carried::mode_fits))]
fn record_fits(mode: usize, number: usize) -> bool
    ensures { result ≡ spec.mode_fits update_record mode number }
{
    (((mode == NEXT) | (mode == PREVIOUS)) & (number == 0))
        | ((mode == ABSOLUTE) & (number <= MOST_IN_BYTE))
}

// Returns whether a path of `count` bytes lies in `size` bytes of data from `from` on: 1 to 8 identifiers.
#[tactic(auto, using(octets::proofs::Picks::choices), unfolding(crate::specs::Carried::bytes_fit))]
fn path_fits(size: usize, from: usize, count: usize) -> bool
    requires { (from < 65536) × (count < 65536) }
    ensures { result ≡ spec.bytes_fit size select from count }
{
    if size < from + count {
        return false;
    }
    (2 <= count) & ((count <= LONGEST_PATH) & (count % 2 == 0))
}

// Returns whether `count` bytes lie in `size` bytes of data from `from` on: 1 to 255.
#[tactic(auto, using(octets::proofs::Picks::choices), unfolding(crate::specs::Carried::bytes_fit))]
fn data_fits(size: usize, from: usize, count: usize) -> bool
    requires { (from < 65536) × (count < 65536) }
    ensures { result ≡ spec.bytes_fit size update from count }
{
    if size < from + count {
        return false;
    }
    (1 <= count) & (count <= MOST_IN_BYTE)
}

// Returns whether a read can stand in its place and wants what one can: up to 255 bytes; in compact it is the last.
#[tactic(auto, using(octets::proofs::Picks::choices), unfolding(crate::specs::Carried::bytes_fit))]
fn wanted_fits(format: Format, last: bool, from: usize, count: usize) -> bool
    ensures { result ≡ (spec.bytes_fit 0 read from count && (last || eqb (spec.number_of format) 1)) }
{
    ((from == 0) & (count <= MOST_IN_BYTE)) & (last | matches!(format, Format::Expanded))
}

// Returns whether a format carries an operation beside `size` bytes of data; `last` tells that none comes after it.
#[tactic(auto, using(octets::proofs::Picks::choices), unfolding(crate::specs::Carried::is_carried, crate::specs::Carried::mode_fits, crate::specs::Carried::bytes_fit))]
fn is_carried(format: Format, size: usize, last: bool, o: Operation) -> bool
    requires { RowFits o }
    ensures { result ≡ spec.is_carried (spec.number_of format) size last o }
{
    match o.kind {
        SELECT => ((o.mode == 0) & (o.number == 0)) & path_fits(size, o.from, o.count),
        UPDATE => ((o.mode == 0) & (o.number <= MOST_OFFSET)) & data_fits(size, o.from, o.count),
        READ => {
            ((o.mode == 0) & (o.number <= MOST_OFFSET)) & wanted_fits(format, last, o.from, o.count)
        }
        UPDATE_RECORD => record_fits(o.mode, o.number) & data_fits(size, o.from, o.count),
        READ_RECORD => {
            record_fits(o.mode, o.number) & wanted_fits(format, last, o.from, o.count)
        }
        INCREASE => ((o.mode == 0) & (o.number == 0)) & data_fits(size, o.from, o.count),
        SEARCH => {
            (((o.mode == FORWARD) | (o.mode == BACKWARD)) & (o.number <= MOST_IN_BYTE))
                & data_fits(size, o.from, o.count)
        }
        _ => false,
    }
}

// Returns how many bytes all operations of a list take in a format, beside `size` bytes of data; or the first that it does not carry.
pub fn measure(format: Format, list: &[u8], size: usize) -> Result<usize, Refusal>
    requires { is_list (length list.now) ≡ true }
    ensures { Measures (spec.number_of format) size (operations_of list.now) result }
{
    let n = operations_in(list.len());
    let mut written = 0;
    for i in 0..n {
        let o = operation_at(list, i);
        if !is_carried(format, size, i + 1 == n, o) {
            return Err(Refusal::NotCarried(i + 1));
        }
        written += written_size(format, o);
    }
    Ok(written)
}
