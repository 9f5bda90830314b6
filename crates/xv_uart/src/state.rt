//! The registers as plain data.

/// The registers of a UART. `msr` is bits 3:0 of the modem status register; of `fifo` the first
/// `fifo_len` places count, the oldest byte first.
#[derive(Clone, Copy, Debug, PartialEq, Eq)]
pub struct UartState {
    pub ier: u8,
    pub fifo_on: bool,
    pub trigger: u8,
    pub lcr: u8,
    pub mcr: u8,
    pub msr: u8,
    pub scr: u8,
    pub dll: u8,
    pub dlm: u8,
    pub overrun: bool,
    pub thre: bool,
    pub fifo_len: u8,
    pub fifo: [u8; 16],
}
