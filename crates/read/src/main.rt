// The program that reads an answer: it reads a format and an answer, and prints the count and each result, or where the answer is damaged.
#![tactic(auto)]

use desk::reads::{MOST_PRINTED, MOST_READ};
use std::io;
use streams::read_full;

// Reads standard input, and writes what is printed for it. One function for this and `build` would take the call as a closure: what it asks of
// every text and memory, and that it gives no more than the memory has, would be more lines than these.
fn main(rt: HostRuntime) -> io::Result<()> {
    let mut text = [0u8; MOST_READ];
    let n = read_full(&mut rt.stdin(), &mut text)?;
    let mut out = [0u8; MOST_PRINTED];
    let k = desk::reads::print(&text[..n], &mut out);
    rt.write_all(&out[..k])
}
