//! The bits of the registers that have names of their own (PC16550D, table II).
//!
//! Constants and lists stand here by hand, since `bitflag_items!` would write fourteen operators
//! with them that nothing calls, each to be proved at every check.
ghost use Rattle.std.specs.Prelude.{⊤, [], ◌∷◌, codes};

use bitflags::{Flag, Flags};

/// Interrupts that are enabled (section 8.7).
#[derive(Clone, Copy, Debug, PartialEq, Eq)]
pub struct InterruptEnable(u8);

impl InterruptEnable {
    pub const RECEIVED_DATA: InterruptEnable = InterruptEnable(0x1);

    pub const TRANSMITTER_EMPTY: InterruptEnable = InterruptEnable(0x2);

    pub const LINE_STATUS: InterruptEnable = InterruptEnable(0x4);

    pub const MODEM_STATUS: InterruptEnable = InterruptEnable(0x8);

    pub const FLAGS: &'static [Flag<InterruptEnable>] = &[
        Flag {
            name: "RECEIVED_DATA",
            value: InterruptEnable::RECEIVED_DATA,
        },
        Flag {
            name: "TRANSMITTER_EMPTY",
            value: InterruptEnable::TRANSMITTER_EMPTY,
        },
        Flag {
            name: "LINE_STATUS",
            value: InterruptEnable::LINE_STATUS,
        },
        Flag {
            name: "MODEM_STATUS",
            value: InterruptEnable::MODEM_STATUS,
        },
    ];
}

impl Flags for InterruptEnable {
    type Bits = u8;

    ghost exact = { ⊤ };

    ghost table = { (codes "RECEIVED_DATA", 1) ∷ (codes "TRANSMITTER_EMPTY", 2)
        ∷ (codes "LINE_STATUS", 4) ∷ (codes "MODEM_STATUS", 8) ∷ [] };

    ghost set_of = { λ flags. flags.0 };

    fn flags<'a>() -> &'a [Flag<InterruptEnable>] {
        InterruptEnable::FLAGS
    }

    fn bits(&self) -> u8 {
        self.0
    }

    fn from_bits_retain(bits: u8) -> InterruptEnable {
        InterruptEnable(bits)
    }
}

/// FIFO control (section 8.5); bits 7:6 are the trigger level.
#[derive(Clone, Copy, Debug, PartialEq, Eq)]
pub struct FifoControl(u8);

impl FifoControl {
    pub const ENABLE: FifoControl = FifoControl(0x1);

    pub const RECEIVER_RESET: FifoControl = FifoControl(0x2);

    pub const FLAGS: &'static [Flag<FifoControl>] = &[
        Flag {
            name: "ENABLE",
            value: FifoControl::ENABLE,
        },
        Flag {
            name: "RECEIVER_RESET",
            value: FifoControl::RECEIVER_RESET,
        },
    ];
}

impl Flags for FifoControl {
    type Bits = u8;

    ghost exact = { ⊤ };

    ghost table = { (codes "ENABLE", 1) ∷ (codes "RECEIVER_RESET", 2) ∷ [] };

    ghost set_of = { λ flags. flags.0 };

    fn flags<'a>() -> &'a [Flag<FifoControl>] {
        FifoControl::FLAGS
    }

    fn bits(&self) -> u8 {
        self.0
    }

    fn from_bits_retain(bits: u8) -> FifoControl {
        FifoControl(bits)
    }
}

/// Line control (section 8.1), of which one bit does something here.
#[derive(Clone, Copy, Debug, PartialEq, Eq)]
pub struct LineControl(u8);

impl LineControl {
    pub const DIVISOR_LATCH: LineControl = LineControl(0x80);

    pub const FLAGS: &'static [Flag<LineControl>] = &[Flag {
        name: "DIVISOR_LATCH",
        value: LineControl::DIVISOR_LATCH,
    }];
}

impl Flags for LineControl {
    type Bits = u8;

    ghost exact = { ⊤ };

    ghost table = { (codes "DIVISOR_LATCH", 128) ∷ [] };

    ghost set_of = { λ flags. flags.0 };

    fn flags<'a>() -> &'a [Flag<LineControl>] {
        LineControl::FLAGS
    }

    fn bits(&self) -> u8 {
        self.0
    }

    fn from_bits_retain(bits: u8) -> LineControl {
        LineControl(bits)
    }
}

/// Modem control (section 8.8).
#[derive(Clone, Copy, Debug, PartialEq, Eq)]
pub struct ModemControl(u8);

impl ModemControl {
    pub const DTR: ModemControl = ModemControl(0x1);

    pub const RTS: ModemControl = ModemControl(0x2);

    pub const OUT1: ModemControl = ModemControl(0x4);

    pub const OUT2: ModemControl = ModemControl(0x8);

    pub const LOOP: ModemControl = ModemControl(0x10);

    pub const FLAGS: &'static [Flag<ModemControl>] = &[
        Flag {
            name: "DTR",
            value: ModemControl::DTR,
        },
        Flag {
            name: "RTS",
            value: ModemControl::RTS,
        },
        Flag {
            name: "OUT1",
            value: ModemControl::OUT1,
        },
        Flag {
            name: "OUT2",
            value: ModemControl::OUT2,
        },
        Flag {
            name: "LOOP",
            value: ModemControl::LOOP,
        },
    ];
}

impl Flags for ModemControl {
    type Bits = u8;

    ghost exact = { ⊤ };

    ghost table = { (codes "DTR", 1) ∷ (codes "RTS", 2)
        ∷ (codes "OUT1", 4) ∷ (codes "OUT2", 8) ∷ (codes "LOOP", 16) ∷ [] };

    ghost set_of = { λ flags. flags.0 };

    fn flags<'a>() -> &'a [Flag<ModemControl>] {
        ModemControl::FLAGS
    }

    fn bits(&self) -> u8 {
        self.0
    }

    fn from_bits_retain(bits: u8) -> ModemControl {
        ModemControl(bits)
    }
}
