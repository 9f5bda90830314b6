//! The plan of a guest, read from its device tree: where its VCPUs start, and its regions.
#![tactic(auto)]

mod children;
mod fault;
mod kind;
mod plan;
mod regions;
mod sort;
mod values;
mod vcpus;

pub use fault::{PlanFault, PlanKind};
pub use plan::plan_of;
