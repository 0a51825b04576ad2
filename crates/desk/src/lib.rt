// The text of the desk: a list of operations and an answer, as lines that a person reads and writes.
#![tactic(auto)]

mod asking;
pub mod builds;
mod fields;
mod lists;
pub mod reads;
