//! The serial queues of a UART: input that waits for the device, and output that it sent.
#![tactic(auto)]

mod serial;

pub use serial::{InputFull, Vserial};

#[cfg(test)]
mod tests;
