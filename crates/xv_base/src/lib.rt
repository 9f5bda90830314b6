//! What every other crate of xv speaks of: names and numbers of the script, keys of guests and
//! VCPUs, ranges of addresses, bits of a number, text in hexadecimal, want of memory, and counts of
//! faults.
#![tactic(auto)]

mod bits;
mod keys;
mod memory;
mod name;
mod number;
mod pairs;
mod range;
mod short;
#[cfg(test)]
mod tests;

pub use bits::has_bit;
pub use keys::{GuestKey, Span, VcpuNo};
pub use name::{DevName, FileName, GuestName, dev_name_of, file_name_of, name_of};
pub use number::number_of;
pub use pairs::{Bytes, hex_pairs_of};
pub use range::{lies_in, meets};

/// Want of memory: the one answer that a call may give freely. Nothing is merged with it.
#[derive(Clone, Copy, Debug, PartialEq, Eq)]
pub struct NoMemory;
