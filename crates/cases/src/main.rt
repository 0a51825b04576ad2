// The program of the cases: it runs the case of each line that it reads on the worked card, and prints its line.
#![tactic(auto)]

mod input;
mod line;

use journal::JOURNAL_LENGTH;
use lines::worked::LENT_RESPONSE;
use std::io;
use streams::read_full;

// The bytes that are read at most.
const MOST_READ: usize = 32768;

// The bytes that a printed line has at most.
const MOST_IN_LINE: usize = 144 + 2 * (LENT_RESPONSE + JOURNAL_LENGTH);

// Prints what there is of a line; nothing where it is empty, or a note, which begins with #.
fn show(rt: &impl Print, line: &[u8]) -> io::Result<()> {
    if line.len() == 0 {
        return Ok(());
    }
    if line[0] == b'#' {
        return Ok(());
    }
    let mut out = [0u8; MOST_IN_LINE];
    let n = line::put_line(&mut out, line);
    rt.write_all(&out[..n])
}

// Prints what there is of each line.
fn show_lines(rt: &impl Print, input: &[u8]) -> io::Result<()> {
    for line in input.split(|b| *b == b'\n') {
        show(rt, line)?;
    }
    Ok(())
}

// Reads standard input, and prints what there is of each line.
fn main(rt: HostRuntime) -> io::Result<()> {
    let mut input = [0u8; MOST_READ];
    let n = read_full(&mut rt.stdin(), &mut input)?;
    show_lines(&rt, &input[..n])
}
