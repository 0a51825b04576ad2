// Tags, lengths and values: the lengths, and the template of an expanded script.
#![tactic(auto)]

pub mod lengths;
pub mod template;
