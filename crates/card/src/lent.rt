// "The lent card": the three memories of a call, passed on as one.

// A lent card: its table, its file memory and its journal, each lent to be written.
#[derive(Drop)]
pub struct LentCard<'c> {
    pub table: &'c mut [u8],
    pub files: &'c mut [u8],
    pub journal: &'c mut [u8],
}
