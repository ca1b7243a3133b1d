// The model of a volume: the types that its smallest parts have in code, and its laws.
#![tactic(auto)]

pub mod laws;
pub mod types;
