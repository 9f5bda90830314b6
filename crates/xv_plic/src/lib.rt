//! The interrupt controller of a guest: a PLIC with 63 sources, 7 levels of priority, and a context
//! for each VCPU (RISC-V Platform-Level Interrupt Controller Specification 1.0.0).
#![tactic(auto)]

mod map;
mod plic;
mod registers;
mod state;

pub use plic::Plic;
pub use state::PlicState;

#[cfg(test)]
mod tests;
