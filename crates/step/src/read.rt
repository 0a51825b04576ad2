// What both formats do with a command that was read: take its data, and find the place where the script goes on.
ghost use Rattle.std.specs.Prelude.{◌≡◌, ◌+◌, ◌≤◌, length};
ghost use Rattle.octets.specs.Bytes.{part};
ghost use Rattle.octets.specs.Choice.{pick};
ghost use Rattle.command.specs.Outcomes.{word_of, goes_on};

use command::ends::{goes_on, word_of};
use command::{Outcome, Reading};

// Returns the data of a command that was read in some bytes, as a part of them.
pub fn data_of<'s>(bytes: &'s [u8], reading: Reading) -> &'s [u8]
    requires { reading.from + reading.size ≤ length bytes.now }
    ensures { result.now ≡ part bytes.now reading.from reading.size }
{
    let from = reading.from;
    let end = from + reading.size;
    &bytes[from..end]
}

// Returns the place where a script goes on: behind a command, or at the script's end where the command's outcome stops it.
pub fn next_place(behind: usize, o: Outcome, end: usize) -> usize
    ensures { result ≡ pick (goes_on (word_of o)) behind end }
{
    if goes_on(word_of(o)) {
        return behind;
    }
    end
}
