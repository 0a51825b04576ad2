// A list of operations as lines of text.
ghost use Rattle.std.specs.Prelude.{◌≡◌, [], ◌+◌, ◌≤◌, ◌<◌, length};
ghost use Rattle.octets.specs.Choice.{pick};
ghost use Rattle.octets.specs.Bytes.{overwrite};
ghost use Rattle.operations.specs.Rows.{row_size, is_read};
ghost use Rattle.desk.specs.Lists as spec;
ghost use Rattle.desk.specs.Promised.{held_in, ListingFits, room_for_rows, room_for_data};

use crate::asking::{Asking, line_of};
use lines::digits::decode;
use lines::values::value_end;
use operations::rows::{ROW_SIZE, is_read};

// The signs that a text has at most.
pub const MOST_TEXT: usize = 65536;

// Returns where the bytes of a kind of operation begin: a read has none.
#[tactic(auto, unfolding(octets::specs::Choice::pick))]
fn place_of(kind: usize, from: usize) -> usize
    ensures { result ≡ pick (is_read kind) 0 from }
{
    if is_read(kind) {
        return 0;
    }
    from
}

// Puts an operation at the place `at` of a list; its bytes begin at `from` in the data.
fn put_row(rows: &mut [u8], at: usize, a: Asking, from: usize)
    requires { (at + row_size ≤ length rows.old) × (a.kind < 256) × (a.mode < 256) }
    ensures { rows.new ≡ overwrite rows.old at (spec.row_of a from) }
{
    let place = place_of(a.kind, from);
    rows[at] = a.kind as u8;
    rows[at + 1] = a.mode as u8;
    octets::put_num(rows, at + 2, a.number);
    octets::put_num(rows, at + 4, place);
    octets::put_num(rows, at + 6, a.count);
}

// Puts the operations of a text from the place `first` on, whose line is the second, at the start of `rows`, and their bytes at the start of
// `data`. Returns how many bytes both have; on an error it is the number of the first line that is not as asked.
pub fn list_from(
    text: &[u8],
    first: usize,
    rows: &mut [u8],
    data: &mut [u8],
) -> Result<(usize, usize), usize>
    requires { (first ≤ length text.now + 1) × (length text.now ≤ spec.most_text + 1) × (length rows.old ≡ room_for_rows) × (length «data».old ≡ room_for_data) }
    ensures { (held_in rows.new «data».new result ≡ spec.list_from (length text.now + 1) text.now first 2 [] []) × ListingFits result }
{
    let mut at = first;
    let mut number: usize = 2;
    let mut size: usize = 0;
    let mut held: usize = 0;
    // The last line feed may be missing: `split` would give an empty line behind one that is there, and one of a text with no line.
    while at < text.len() {
        let end = value_end(text, at, b'\n');
        let line = &text[at..end];
        let Some(a) = line_of(line) else {
            return Err(number);
        };
        put_row(rows, size, a, held);
        held += decode(&line[a.from..], &mut data[held..]);
        size += ROW_SIZE;
        number += 1;
        at = end + 1;
    }
    Ok((size, held))
}

// Puts a sign that no line has in the place of the first that is too much.
pub fn limit(text: &mut [u8])
    requires { length text.old ≤ spec.most_text + 1 }
    ensures { text.new ≡ spec.limited_text text.old }
{
    if MOST_TEXT < text.len() {
        text[MOST_TEXT] = 0;
    }
}
