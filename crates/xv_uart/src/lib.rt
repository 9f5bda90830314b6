//! A UART after the 16550 (National Semiconductor PC16550D), which receives from a queue of input
//! and keeps what it sends.
#![tactic(auto)]

mod fifo;
mod flags;
mod interrupts;
mod modem;
mod registers;
mod state;
mod uart;

pub use state::UartState;
pub use uart::Uart;

#[cfg(test)]
mod tests;
