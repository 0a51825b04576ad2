// What the programs read and print, and the worked card.
#![tactic(auto)]

pub mod calls;
pub mod digits;
pub mod put;
pub mod values;
pub mod worked;
