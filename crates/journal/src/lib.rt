// The journal: what was written, so that it can be given back.
//
//     byte 0       2         3      4                4 + U             end
//          +-------+---------+------+----------------+-----------------+
//          |   U   | scripts | flag |    entries     |      zeros      |
//          +-------+---------+------+----------------+-----------------+
//          '---------- head --------'
//
// U is the number of bytes that the entries take, the flag is 0. The oldest entry comes first, and each ends in its tail, so that they are
// read back from the end:
//
//          +-------------+------+---+-------+-------+---+---+
//          | n old bytes | kind | 0 | place |   n   | 0 | 0 |
//          +-------------+------+---+-------+-------+---+---+
//                        '------------- tail ---------------'
#![tactic(auto)]

pub mod back;
pub mod read;
pub mod sound;
pub mod write;

ghost use Rattle.std.specs.Prelude.{◌≡◌};
ghost use Rattle.octets.specs.Bytes.{InWord};
ghost use Rattle.journal.specs.Entries.{entry_bytes};

// "The journal has 2,048 bytes": the head of 4, then entries, each with a tail of 8.
pub const JOURNAL_LENGTH: usize = 2048;

pub const HEAD_SIZE: usize = 4;

pub const TAIL_SIZE: usize = 8;

// "scripts on trial (0 to 16)"
pub const MOST_SCRIPTS: usize = 16;

// "Kind 1 marks a script's start ..; kind 2 holds file memory bytes ..; kind 3 one table byte". Numbers and no enum: a tail holds any byte
// there until its journal is found sound.
pub const MARKS_START: usize = 1;

pub const HOLDS_FILE_BYTES: usize = 2;

pub const HOLDS_TABLE_BYTE: usize = 3;

// The head of a journal: its used bytes U, its scripts on trial, and byte 3.
#[derive(Clone, Copy)]
pub struct Head {
    pub used: usize,
    pub scripts: u8,
    pub flag: u8,
}

// The tail of an entry: its kind, its place, and how many old bytes stand before it.
#[derive(Clone, Copy)]
pub struct Tail {
    pub kind: usize,
    pub place: usize,
    pub size: usize,
}

// The memories that a command writes.
#[derive(Clone, Copy)]
pub enum Memory {
    Files,
    Table,
}

// Returns how many bytes an entry takes that has n old bytes.
pub fn entry_bytes(n: usize) -> usize
    requires { InWord (entry_bytes n) }
    ensures { result ≡ entry_bytes n }
{
    TAIL_SIZE + n
}
