//! Host memory as one list of bytes, and the counter of the accesses that are made to it.
#![tactic(auto)]

mod counter;
mod memory;

pub use counter::Steps;
pub use memory::{HostMem, NoMemory};

#[cfg(test)]
mod tests;
