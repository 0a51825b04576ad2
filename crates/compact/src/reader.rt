// What a reader of a compact script finds.
ghost use Rattle.std.specs.Prelude.{◌≡◌, ◌<◌, length};
ghost use Rattle.compact.specs.Compact as spec;
ghost use Rattle.compact.specs.Promised.{ReadingFits};

use crate::read::read_at;
use command::Reading;
use command::reader::Reader;

// Returns the command that stands at a reader's place.
fn reading_of<'a>(r: Reader<'a>) -> Reading
    requires { r.at < length r.script.now }
    ensures { (result ≡ spec.read_at r.entry.script.now r.entry.at) × ReadingFits r.entry.script.now r.entry.at result }
{
    read_at(r.script, r.at)
}

// Returns the command that a reader finds at the place `at` of a script.
pub fn next_reading(script: &[u8], at: usize) -> Reading
    requires { at < length script.now }
    ensures { (result ≡ spec.read_at script.now at) × ReadingFits script.now at result }
{
    reading_of(Reader::at_front(script).moved_on(at))
}
