// Words that are texts of digits: bytes in hexadecimal, and texts of 0 and 1.
// Nothing is copied and no memory is got: what is read refers to the line.
#![tactic(auto)]

pub mod bits;
pub mod hex;
pub mod show;
