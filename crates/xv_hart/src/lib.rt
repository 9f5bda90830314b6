//! The modelled machine: host memory, and the one hart that runs guests over it. The hart executes
//! each row of the instruction table, in modes S and U, and leaves to its monitor what it can't do
//! by itself: the calls and waits of S, and accesses that lead to no memory.
//!
//! The hypervisor CSRs say which exceptions enter its guest, which of the guest's interrupt lines
//! are up, and how far the guest's time is from the host's clock. Each access of its
//! guest goes through two stages: the guest's own page tables, whose entries are read through the
//! second stage too, and the tables in host memory that hgatp names.
//!
//! Integer results are `xv_alu`'s, CSRs `xv_csr`'s and `xv_hcsr`'s, traps `xv_trap`'s, decoding
//! `xv_isa`'s and the translation of a guest's virtual addresses `xv_sv39`'s.
#![tactic(auto)]

mod access;
mod action;
mod effect;
mod exit;
mod fetch;
mod hart;
mod machine;
mod memory;
mod perform;
mod regs;
mod system;
mod tables;
#[cfg(test)]
mod tests;
mod trail;

pub use exit::{Exit, HTrap};
pub use hart::Hart;
pub use machine::Machine;
pub use regs::{Held, Regs};
