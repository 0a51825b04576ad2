// What the programs share of reading: an input up to the room that there is for it.
#![tactic(auto)]

ghost use Rattle.std.specs.Prelude.{◌≤◌, IfOk, length};

use std::io::{Read, Result};

// Reads until `buf` is full or the input ends. Returns how many bytes it put at the start of `buf`. A loop over `read`: `read_to_end` asks for
// a Vec, and `read_exact` fails where the input ends.
pub fn read_full<R: Read>(input: &mut R, buf: &mut [u8]) -> Result<usize>
    ensures { IfOk result (λ n. n ≤ length buf.new) }
{
    let mut done = 0;
    while done < buf.len() {
        let n = input.read(&mut buf[done..])?;
        if n == 0 {
            break;
        }
        done += n;
    }
    Ok(done)
}
