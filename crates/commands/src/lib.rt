// The commands that a line can begin with, and what can be wrong with a line.
#![tactic(auto)]

pub mod command;
pub mod trouble;
