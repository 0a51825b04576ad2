// Writing the script of a list of operations.
ghost use Rattle.std.specs.Prelude.{◌≡◌, true, ◌+◌, ◌≤◌, ◌<◌, length};
ghost use Rattle.octets.specs.Bytes.{overwrite};
ghost use Rattle.operations.specs.Rows.{is_list, operations_of};
ghost use Rattle.operations.specs.Carried.{first_not_carried, number_of};
ghost use Rattle.operations.specs.Sizes.{Carried, Writable, compact_size, tlv_size, capdu_size, written_size, all_size};
ghost use Rattle.operations.specs.Scripts as spec;

use crate::rows::{
    INCREASE, Operation, READ, READ_RECORD, SELECT, UPDATE, UPDATE_RECORD, is_binary, is_read,
    operation_at, operations_in,
};
use crate::sizes::{HEADER_SIZE, capdu_size, has_le};
use command::{Format, instruction};
use tlv::lengths::put_length;

// "P1 08 from the root"
const FROM_ROOT: usize = 0x08;

// Returns the instruction of a kind of operation.
#[tactic(auto, using(octets::proofs::Picks::choices), unfolding(crate::specs::Scripts::instruction_of))]
fn instruction_of(kind: usize) -> usize
    ensures { (result ≡ spec.instruction_of kind) × (result < 256) }
{
    match kind {
        SELECT => instruction::SELECT,
        UPDATE => instruction::UPDATE_BINARY,
        READ => instruction::READ_BINARY,
        UPDATE_RECORD => instruction::UPDATE_RECORD,
        READ_RECORD => instruction::READ_RECORD,
        INCREASE => instruction::INCREASE,
        _ => instruction::SEARCH,
    }
}

// Returns P1 of an operation's command.
#[tactic(auto, using(octets::proofs::Picks::choices), unfolding(crate::specs::Scripts::p1_of))]
fn p1_of(o: Operation) -> usize
    ensures { result ≡ spec.p1_of o }
{
    if o.kind == SELECT {
        return FROM_ROOT;
    }
    if is_binary(o.kind) {
        return o.number / 256;
    }
    o.number
}

// Returns P2 of an operation's command.
#[tactic(auto, using(octets::proofs::Picks::choices), unfolding(crate::specs::Scripts::p2_of))]
fn p2_of(o: Operation) -> usize
    ensures { result ≡ spec.p2_of o }
{
    if o.kind == SELECT {
        return instruction::NO_DATA;
    }
    if is_binary(o.kind) {
        return o.number % 256;
    }
    o.mode
}

// Writes the command of an operation, its header and its bytes, at the place `at`. Returns the place after it.
fn put_command(o: Operation, data: &[u8], out: &mut [u8], at: usize) -> usize
    requires { Carried (length «data».now) o × (at + compact_size o ≤ length out.old) }
    ensures { (out.new ≡ overwrite out.old at (spec.compact_of «data».now o)) × (result ≡ at + compact_size o) }
{
    let i = instruction_of(o.kind);
    let class = instruction::class_of(i);
    octets::copy(
        out,
        at,
        &[
            class as u8,
            i as u8,
            p1_of(o) as u8,
            p2_of(o) as u8,
            o.count as u8,
        ],
    );
    let behind = at + HEADER_SIZE;
    if is_read(o.kind) {
        return behind;
    }
    let from = o.from;
    let to = from + o.count;
    octets::copy(out, behind, &data[from..to]);
    behind + o.count
}

// Writes the TLV of an operation's C-APDU at the place `at`. Returns the place after it.
fn put_capdu(o: Operation, data: &[u8], out: &mut [u8], at: usize) -> usize
    requires { Carried (length «data».now) o × (at + tlv_size (capdu_size o) ≤ length out.old) }
    ensures { (out.new ≡ overwrite out.old at (spec.tlv_of (spec.capdu_of «data».now o))) × (result ≡ at + tlv_size (capdu_size o)) }
{
    octets::fill(out, at, 1, 0x22);
    let from = put_length(out, at + 1, capdu_size(o));
    let end = put_command(o, data, out, from);
    if has_le(o.kind) {
        octets::fill(out, end, 1, 0);
        return end + 1;
    }
    end
}

// Writes an operation of a script of a format at the place `at`. Returns the place after it.
#[tactic(auto, using(octets::proofs::Picks::choices), unfolding(crate::specs::Scripts::written_as, crate::specs::Sizes::written_size))]
fn put_operation(format: Format, o: Operation, data: &[u8], out: &mut [u8], at: usize) -> usize
    requires { Carried (length «data».now) o × (at + written_size (number_of format) o ≤ length out.old) }
    ensures { (out.new ≡ overwrite out.old at (spec.written_as (number_of format) «data».now o)) × (result ≡ at + written_size (number_of format) o) }
{
    match format {
        Format::Compact => put_command(o, data, out, at),
        Format::Expanded => put_capdu(o, data, out, at),
    }
}

// Returns the operation itself, with its count taken from one byte: knowing that, the compiler makes shorter code.
fn counted(o: Operation) -> Operation
    requires { o.count < 256 }
    ensures { result ≡ o }
{
    Operation {
        count: octets::wide(o.count as u8),
        ..o
    }
}

// Writes all operations of a list, one behind the other, from the place `at` on.
fn put_all(format: Format, list: &[u8], data: &[u8], out: &mut [u8], at: usize)
    requires { (is_list (length list.now) ≡ true) × (first_not_carried (number_of format) (length «data».now) 1 (operations_of list.now) ≡ 0) × (at + all_size (number_of format) (operations_of list.now) ≤ length out.old) }
    ensures { out.new ≡ overwrite out.old at (spec.all_written (number_of format) «data».now (operations_of list.now)) }
{
    let mut place = at;
    for i in 0..operations_in(list.len()) {
        place = put_operation(format, counted(operation_at(list, i)), data, out, place);
    }
}

// Writes the script of a list of operations, which take `size` bytes, to the front of `out`.
pub fn put_script(format: Format, size: usize, list: &[u8], data: &[u8], out: &mut [u8])
    requires { Writable (number_of format) size list.now «data».now out.old }
    ensures { out.new ≡ overwrite out.old 0 (spec.script_of (number_of format) «data».now (operations_of list.now)) }
{
    match format {
        Format::Compact => put_all(format, list, data, out, 0),
        Format::Expanded => {
            octets::fill(out, 0, 1, 0xAA);
            let from = put_length(out, 1, size);
            put_all(format, list, data, out, from);
        }
    }
}
