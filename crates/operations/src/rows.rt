// A list of operations: 8 bytes for each.
//
//     0     kind      1 select, 2 update, 3 read, 4 update record, 5 read record, 6 increase, 7 search
//     1     mode      record operations: 2 next, 3 previous, 4 absolute; search: 4 forward, 5 backward; else 0
//     2-3   number    update, read: offset; record operations, search: record number; else 0
//     4-5   from      where its bytes begin in the data beside the list; 0 for the reads
//     6-7   count     how many bytes it has; of a read how many are wanted, 0 for all
ghost use Rattle.std.specs.Prelude.{◌≡◌, ◌+◌, ◌*◌, ◌≤◌, length};
ghost use Rattle.operations.specs.Rows as spec;

// The kinds. They stay numbers: any byte may stand in a list, what a list comes to is said of that byte, and an enum would be made of it in
// each function and turned back in each promise.
pub const SELECT: usize = 1;

pub const UPDATE: usize = 2;

pub const READ: usize = 3;

pub const UPDATE_RECORD: usize = 4;

pub const READ_RECORD: usize = 5;

pub const INCREASE: usize = 6;

pub const SEARCH: usize = 7;

// The modes of a record operation, and the ways of a search.
pub const NEXT: usize = 2;

pub const PREVIOUS: usize = 3;

pub const ABSOLUTE: usize = 4;

pub const FORWARD: usize = 4;

pub const BACKWARD: usize = 5;

// The bytes of an operation in the list.
pub const ROW_SIZE: usize = 8;

// The most operations of a list.
pub const MOST_OPERATIONS: usize = 40;

// An operation.
#[derive(Clone, Copy)]
pub struct Operation {
    pub kind: usize,
    pub mode: usize,
    pub number: usize,
    pub from: usize,
    pub count: usize,
}

// Returns whether a kind of operation hands out bytes.
pub fn is_read(kind: usize) -> bool
    ensures { result ≡ spec.is_read kind }
{
    (kind == READ) | (kind == READ_RECORD)
}

// Returns whether a kind of operation works at an offset.
pub(crate) fn is_binary(kind: usize) -> bool
    ensures { result ≡ spec.is_binary kind }
{
    (kind == UPDATE) | (kind == READ)
}

// Returns how many operations a list of so many bytes has.
pub(crate) fn operations_in(size: usize) -> usize
    ensures { result ≡ spec.operations_in size }
{
    size / ROW_SIZE
}

// Returns whether so many bytes are 1 to 40 whole operations.
#[tactic(auto, unfolding(crate::specs::Rows::is_list))]
pub(crate) fn is_list(size: usize) -> bool
    ensures { result ≡ spec.is_list size }
{
    (size % ROW_SIZE == 0) & ((1 <= operations_in(size)) & (operations_in(size) <= MOST_OPERATIONS))
}

// Returns the operation that stands in a list at the number i, from 0.
#[tactic(auto, unfolding(crate::specs::Rows::operation_at))]
pub(crate) fn operation_at(list: &[u8], i: usize) -> Operation
    requires { spec.row_size * i + spec.row_size ≤ length list.now }
    ensures { (result ≡ spec.operation_at list.now i) × spec.RowFits result }
{
    let at = ROW_SIZE * i;
    let kind = octets::wide(list[at]);
    let mode = octets::wide(list[at + 1]);
    let number = octets::num_at(list, at + 2);
    let from = octets::num_at(list, at + 4);
    let count = octets::num_at(list, at + 6);
    Operation {
        kind,
        mode,
        number,
        from,
        count,
    }
}
