//! The registers of the devices, which their definitions and their code share.

/// The registers of a UART, by what a read and a write of each is when DLAB is 0 (National
/// Semiconductor PC16550D, table II).
#[derive(Clone, Copy, Debug, PartialEq, Eq)]
pub enum UartRegister {
    /// Receiver buffer, transmitter holding; the divisor's low byte when DLAB is 1.
    Data,
    /// Interrupt enable; the divisor's high byte when DLAB is 1.
    InterruptEnable,
    /// Interrupt identification, FIFO control.
    InterruptIdent,
    LineControl,
    ModemControl,
    LineStatus,
    ModemStatus,
    Scratch,
}

/// The inputs of a UART's modem interface, each true where it is on (section 8.9).
#[derive(Clone, Copy, Debug, PartialEq, Eq)]
pub struct Modem {
    pub cts: bool,
    pub dsr: bool,
    pub ri: bool,
    pub dcd: bool,
}

/// Which 32 of the 64 bits of a mask.
#[derive(Clone, Copy, Debug, PartialEq, Eq)]
pub enum Half {
    Low,
    High,
}

/// The registers of a PLIC (RISC-V Platform-Level Interrupt Controller Specification 1.0.0, chapter
/// Memory Map). Sources are 1 to 63.
#[derive(Clone, Copy, Debug, PartialEq, Eq)]
pub enum PlicRegister {
    /// The priority of a source.
    Priority(u8),
    /// Which sources are pending.
    Pending(Half),
    /// Which sources are enabled for a context.
    Enables(u8, Half),
    /// The threshold of a context.
    Threshold(u8),
    /// Claim and completion of a context.
    Claim(u8),
}
