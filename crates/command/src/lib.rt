// One command, in its parsed form.
#![tactic(auto)]

pub mod checks;
pub mod ends;
pub mod instruction;
pub mod reader;

use checks::Check;
use session::Session;

// The format of a script and of its answer.
#[derive(Clone, Copy)]
pub enum Format {
    Compact,
    Expanded,
}

// A command as both formats read it: whether its form is whole, its header (p3 is Le, or what stands in its place in a compact
// command), the case that it has, 0 for none, and whether it is a compact command with bytes after it. Its data are lent beside it. What is
// wrong with a command is for the checks, in their order, and the first of them asks `whole`: so it is no Option, and each byte a number.
#[derive(Clone, Copy)]
pub struct Command {
    pub whole: bool,
    pub class: usize,
    pub instruction: usize,
    pub p1: usize,
    pub p2: usize,
    pub p3: usize,
    pub case: usize,
    pub after: bool,
}

// A command as it is asked of a card: the format of its script, the access domain, its parsed form, and its data.
#[derive(Clone, Copy)]
pub struct Asked<'d> {
    pub format: Format,
    pub domain: usize,
    pub command: Command,
    pub data: &'d [u8],
}

// A command as it stands in some bytes: its parsed form, and where its data lie and how many there are.
#[derive(Clone, Copy)]
pub struct Reading {
    pub command: Command,
    pub from: usize,
    pub size: usize,
}

// How a command ends: well with a word and no data; well with a word and a part of the file memory (its place and length); well
// with a word and the first waiting bytes (their number); or with the check that failed, whose word it is.
#[derive(Clone, Copy)]
pub enum Outcome {
    Well(usize),
    FromFiles(usize, usize, usize),
    FromWaiting(usize, usize),
    Error(Check),
}

// A script after some commands: its session, how the last command ended, and how many there were.
#[derive(Drop)]
pub struct Step {
    pub session: Session,
    pub outcome: Outcome,
    pub count: usize,
}
