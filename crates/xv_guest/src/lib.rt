//! One guest: what it holds of a host, and the lone machine that it is over the host's bytes.
#![tactic(auto)]

mod cells;
mod clear;
mod device;
mod device_list;
mod devices;
mod digest;
mod give;
mod guest;
mod held;
mod law;
mod own_memory;
mod ranges;
mod take;
mod views;

pub use guest::Guest;
pub use law::{guests_are_local, stores_are_local};
pub use ranges::reserved_ranges;
pub use xv_lone::{GuestState, HartState, VcpuView};

#[cfg(test)]
mod tests;
