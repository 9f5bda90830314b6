//! The calls that a guest may make of its hypervisor (Supervisor Binary Interface 1.0): which call
//! the registers a7, a6 and a0 to a5 ask for, and which VCPUs a mask names.
//!
//! What of the standard is this project's profile: there are the extensions of chapters 4 and 6 to
//! 10, without the legacy ones and the performance counters, and of the remote fences only those
//! that concern a guest without guests of its own.
#![tactic(auto)]

mod call;
mod mask;
#[cfg(test)]
mod tests;

pub use call::{Call, call_of};
pub use mask::mask_ok;
