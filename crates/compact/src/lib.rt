// Compact scripts.
#![tactic(auto)]

pub mod answer;
mod read;
mod reader;
pub mod run;
