//! The regions of a guest: which of them an address lies in, whether they may stand together, and
//! how many frames of the host they need.
#![tactic(auto)]

mod cell;
mod fault;
mod map;
mod need;
mod plan;
mod rules;

pub use cell::Cell;
pub use fault::RegionFault;
pub use map::RegionMap;
pub use need::need_of;
pub use plan::{DeviceKind, Kind, Plan, Region, VcpuPlan};
