// A list of file operations, and the script that asks a card for exactly that list.
#![tactic(auto)]

mod carried;
pub mod rows;
mod sizes;
mod writing;

ghost use Rattle.std.specs.Prelude.{◌≡◌};
ghost use Rattle.operations.specs.Builds as spec;

use carried::{format_of, measure};
use engine::LONGEST_SCRIPT;
use rows::{is_list, operations_in};
use sizes::script_size;
use writing::put_script;

// A script that was built: how many operations it has, and its length.
#[derive(Clone, Copy, Debug, PartialEq, Eq)]
pub struct Built {
    pub operations: usize,
    pub length: usize,
}

// Why a build is refused: "not 1 to 40 operations, one that the format can't carry" (its number in the list, from 1), "a script above the
// engine's length", or no room for the script in the memory.
#[derive(Clone, Copy, Debug, PartialEq, Eq)]
pub enum Refusal {
    NotAList,
    NotCarried(usize),
    TooLong,
    NoRoom,
}

// What a build answers in numbers alone: 0 or why it is refused; how many operations there are, or the number of the one at fault; the
// script's length.
#[derive(Clone, Copy)]
pub struct Numbers {
    pub refusal: usize,
    pub operations: usize,
    pub length: usize,
}

// Returns the numbers of a build that is refused.
fn refused(refusal: usize, operation: usize) -> Numbers
    ensures { result ≡ spec.refused refusal operation }
{
    Numbers {
        refusal,
        operations: operation,
        length: 0,
    }
}

// Returns what a build answers in numbers, for those who take no enum: a caller in C, and the lines that the program `build` prints.
pub fn in_numbers(built: Result<Built, Refusal>) -> Numbers
    ensures { result ≡ spec.in_numbers built }
{
    match built {
        Ok(b) => Numbers {
            refusal: 0,
            operations: b.operations,
            length: b.length,
        },
        Err(Refusal::NotAList) => refused(1, 0),
        Err(Refusal::NotCarried(operation)) => refused(2, operation),
        Err(Refusal::TooLong) => refused(3, 0),
        Err(Refusal::NoRoom) => refused(4, 0),
    }
}

// Writes the script of a list of operations, in a format, to the front of `script`; the bytes of the operations lie in `data`. Returns how
// many operations there are and the script's length; or why it is refused, with nothing written.
pub fn build(
    format: u8,
    operations: &[u8],
    data: &[u8],
    script: &mut [u8],
) -> Result<Built, Refusal>
    ensures { (spec.building result script.new ≡ spec.build format operations.now «data».now script.old) × spec.BuiltFits (spec.in_numbers result) }
{
    if !is_list(operations.len()) {
        return Err(Refusal::NotAList);
    }
    let format = format_of(format)?;
    let size = measure(format, operations, data.len())?;
    let length = script_size(format, size);
    if LONGEST_SCRIPT < length {
        return Err(Refusal::TooLong);
    }
    if script.len() < length {
        return Err(Refusal::NoRoom);
    }
    put_script(format, size, operations, data, script);
    Ok(Built {
        operations: operations_in(operations.len()),
        length,
    })
}
