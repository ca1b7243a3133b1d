// What a line asks for, and the text of it.
#![tactic(auto)]

pub mod line;
pub mod write;
