//! Devices on a guest's bus: what an access is and what it comes to, the traits of a device and of
//! the memory that it may reach, and the automata of all devices, defined.
#![tactic(auto)]

mod access;
mod device;
mod memory;
mod registers;

pub use access::{Access, Ending, Outcome, Width};
pub use device::Device;
pub use memory::{GuestMem, NoMem};
pub use registers::{Half, Modem, PlicRegister, UartRegister};

#[cfg(test)]
mod tests;
