// Expanded scripts.
#![tactic(auto)]

pub mod answer;
mod capdu;
mod reader;
pub mod run;
