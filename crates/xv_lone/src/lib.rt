//! The lone machine: what one guest is by itself, with no host, no page tables of a host and no
//! other guest. The crate has definitions (in `specs/`) and the plain data that they speak of; no
//! engine.
//!
//! A VCPU's step is that of `xv_step`'s hart over the cells of the guest's memory; what that hart
//! asks for is answered here at once, an access to a device by its automaton (`xv_bus`). An answer
//! is about the whole machine, as a call to firmware may be about other VCPUs (`xv_sbi`).
#![tactic(auto)]

mod vcpu;

pub use vcpu::{GuestState, HartState, TurnEnd, VcpuView};
