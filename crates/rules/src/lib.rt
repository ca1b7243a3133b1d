// What every layer shares: the limits of a volume, and why a call is refused.
#![tactic(auto)]

pub mod limits;
pub mod refusal;
