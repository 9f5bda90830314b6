//! The firmware of a guest, which the host is: the start of its first VCPU, its reboot, and the
//! answers to its calls (Supervisor Binary Interface 1.0). All of it is about the guest alone; no
//! hart and no host memory has a part in it.
#![tactic(auto)]

mod calls;
mod reply;
mod start;

pub use calls::{Progress, call};
pub use start::{reboot, start_first};
