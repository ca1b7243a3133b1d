// What a line is made of: words, and decimal numbers among them.
// Nothing is copied and no memory is got: what is read refers to the line.
#![tactic(auto)]

pub mod byte;
pub mod cursor;
pub mod number;
