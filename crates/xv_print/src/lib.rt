//! Text of answers: numbers in decimal and hexadecimal, bytes as they are, as pairs of digits, or
//! escaped, put together in room that is reserved once.
#![tactic(auto)]

mod digits;
mod printer;

pub use printer::{Printer, ROOM};
