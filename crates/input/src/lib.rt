// Lines of an input, one at a time, in memory that is got once: however long a line is, no more of it is held than one byte past the
// longest that can be understood.
#![tactic(auto)]

pub mod buffer;
pub mod next;
