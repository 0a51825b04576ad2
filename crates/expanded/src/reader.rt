// What a reader of a script finds in the value of a template.
ghost use Rattle.std.specs.Prelude.{◌≡◌, ◌≤◌, length};
ghost use Rattle.tlv.specs.Templates as spec;
ghost use Rattle.tlv.specs.Promised.{ItemFits};

use command::reader::Reader;
use tlv::template::{Item, item_at};

// Returns the item that stands at a reader's place, in a value that ends at `end`.
fn item_of<'a>(r: Reader<'a>, end: usize) -> Item
    requires { (r.at ≤ end) × (end ≤ length r.script.now) }
    ensures { (result ≡ spec.item_at r.entry.script.now r.entry.at end) × ItemFits r.entry.at end result }
{
    item_at(r.script, r.at, end)
}

// Returns the item that a reader finds at the place `at` of a value that ends at `end`.
pub fn next_item(script: &[u8], at: usize, end: usize) -> Item
    requires { (at ≤ end) × (end ≤ length script.now) }
    ensures { (result ≡ spec.item_at script.now at end) × ItemFits at end result }
{
    item_of(Reader::at_front(script).moved_on(at), end)
}
