// The lent card: table and file memory. An entry of the table has 16 bytes:
//
//     byte 0      2        3      4       6        8        9        10      11  12      13      15
//          +------+--------+------+-------+--------+--------+--------+-------+---+-------+-------+
//          |  id  | parent | kind | start | length | record | newest | state | 0 | never | 0 0 0 |
//          +------+--------+------+-------+--------+--------+--------+-------+---+-------+-------+
//
// Identifier, start and length are big-endian numbers of two bytes; `record` is the record length, and `never` the NEVER bits.
#![tactic(auto)]

pub mod lent;
pub mod records;
pub mod rules;
pub mod sound;
pub mod tree;

ghost use Rattle.std.specs.Prelude.{◌≡◌, length};
ghost use Rattle.octets.specs.Bytes.{InWord};
ghost use Rattle.card.specs.Row.{entry_size, entries, HasEntry, row, row_of, place_of_newest, place_of_state};
ghost use Rattle.card.specs.Promised.{RowFits};

// The number of bytes of an entry.
pub const ENTRY_SIZE: usize = 16;

// "kind: 1 MF, 2 DF, 3 ADF, 4 transparent, 5 linear fixed, 6 cyclic". Kinds and states are numbers and no enums: an entry holds any byte
// there until its table is found sound, and the rules are over that byte.
pub const MF: usize = 1;

pub const DF: usize = 2;

pub const ADF: usize = 3;

pub const TRANSPARENT: usize = 4;

pub const LINEAR: usize = 5;

pub const CYCLIC: usize = 6;

// The bytes of an entry that a command writes: the place of the newest record, and the state.
pub const NEWEST_BYTE: usize = 9;

pub const STATE_BYTE: usize = 10;

// "05 activated, 04 deactivated"
pub const ACTIVATED: usize = 5;

pub const DEACTIVATED: usize = 4;

// An entry of the table, read from its 16 bytes. That they fit (`RowFits`) stands in contracts and not in the type: the definitions make a
// row of any numbers, and each of them would have to ask for bytes.
#[derive(Clone, Copy)]
pub struct Row {
    pub identifier: usize,
    pub parent: usize,
    pub kind: usize,
    pub start: usize,
    pub size: usize,
    pub record_length: usize,
    pub newest: usize,
    pub state: usize,
    pub eleven: usize,
    pub never: usize,
    pub thirteen: usize,
    pub fifteen: usize,
}

// Returns how many entries a table has.
pub fn entries(table: &[u8]) -> usize
    ensures { result ≡ entries table.now }
{
    table.len() / ENTRY_SIZE
}

// Returns what the 16 bytes of an entry hold.
#[tactic(auto, unfolding(crate::specs::Row::row))]
fn row_of(bytes: &[u8]) -> Row
    requires { length bytes.now ≡ entry_size }
    ensures { (result ≡ row bytes.now) × RowFits result }
{
    Row {
        identifier: octets::num_at(bytes, 0),
        parent: octets::wide(bytes[2]),
        kind: octets::wide(bytes[3]),
        start: octets::num_at(bytes, 4),
        size: octets::num_at(bytes, 6),
        record_length: octets::wide(bytes[8]),
        newest: octets::wide(bytes[9]),
        state: octets::wide(bytes[10]),
        eleven: octets::wide(bytes[11]),
        never: octets::wide(bytes[12]),
        thirteen: octets::num_at(bytes, 13),
        fifteen: octets::wide(bytes[15]),
    }
}

// Returns what entry e of a table holds.
#[tactic(auto, unfolding(crate::specs::Row::row_of, crate::specs::Row::entry))]
pub fn row_at(table: &[u8], e: usize) -> Row
    requires { HasEntry table.now e }
    ensures { (result ≡ row_of table.now e) × RowFits result }
{
    let at = ENTRY_SIZE * e;
    row_of(&table[at..at + ENTRY_SIZE])
}

// Returns the place in the table of the byte of entry e that holds the place of the newest record.
pub fn place_of_newest(e: usize) -> usize
    requires { InWord (place_of_newest e) }
    ensures { result ≡ place_of_newest e }
{
    ENTRY_SIZE * e + NEWEST_BYTE
}

// Returns the place in the table of the byte of entry e that holds the state. Beside the function above it is no plainer as one that
// takes the byte: each is one sum, and is asked for by its name once.
pub fn place_of_state(e: usize) -> usize
    requires { InWord (place_of_state e) }
    ensures { result ≡ place_of_state e }
{
    ENTRY_SIZE * e + STATE_BYTE
}
