//! The bits of the supervisor CSRs that have names of their own.
//!
//! Constants and lists stand here by hand, since `bitflag_items!` would write fourteen operators
//! with them that nothing calls, each to be proved at every check.
ghost use Rattle.std.specs.Prelude.{⊤, ◌^◌, [], ◌∷◌, codes};

use bitflags::{Flag, Flags};

/// Bits of sstatus (Privileged Architecture 20211203, section 4.1.1).
#[derive(Clone, Copy, Debug, PartialEq, Eq)]
pub struct Sstatus(u64);

impl Sstatus {
    pub const SIE: Sstatus = Sstatus(0x2);

    pub const SPIE: Sstatus = Sstatus(0x20);

    pub const SPP: Sstatus = Sstatus(0x100);

    pub const SUM: Sstatus = Sstatus(0x4_0000);

    pub const MXR: Sstatus = Sstatus(0x8_0000);

    pub const FLAGS: &'static [Flag<Sstatus>] = &[
        Flag {
            name: "SIE",
            value: Sstatus::SIE,
        },
        Flag {
            name: "SPIE",
            value: Sstatus::SPIE,
        },
        Flag {
            name: "SPP",
            value: Sstatus::SPP,
        },
        Flag {
            name: "SUM",
            value: Sstatus::SUM,
        },
        Flag {
            name: "MXR",
            value: Sstatus::MXR,
        },
    ];
}

impl Flags for Sstatus {
    type Bits = u64;

    ghost exact = { ⊤ };

    ghost table = { (codes "SIE", 2 ^ 1) ∷ (codes "SPIE", 2 ^ 5) ∷ (codes "SPP", 2 ^ 8)
        ∷ (codes "SUM", 2 ^ 18) ∷ (codes "MXR", 2 ^ 19) ∷ [] };

    ghost set_of = { λ status. status.0 };

    fn flags<'a>() -> &'a [Flag<Sstatus>] {
        Sstatus::FLAGS
    }

    fn bits(&self) -> u64 {
        self.0
    }

    fn from_bits_retain(bits: u64) -> Sstatus {
        Sstatus(bits)
    }
}

/// Interrupts as bits of sip and sie (section 4.1.3).
#[derive(Clone, Copy, Debug, PartialEq, Eq)]
pub struct Interrupts(u64);

impl Interrupts {
    pub const SOFTWARE: Interrupts = Interrupts(0x2);

    pub const TIMER: Interrupts = Interrupts(0x20);

    pub const EXTERNAL: Interrupts = Interrupts(0x200);

    pub const FLAGS: &'static [Flag<Interrupts>] = &[
        Flag {
            name: "SOFTWARE",
            value: Interrupts::SOFTWARE,
        },
        Flag {
            name: "TIMER",
            value: Interrupts::TIMER,
        },
        Flag {
            name: "EXTERNAL",
            value: Interrupts::EXTERNAL,
        },
    ];
}

impl Flags for Interrupts {
    type Bits = u64;

    ghost exact = { ⊤ };

    ghost table = { (codes "SOFTWARE", 2 ^ 1) ∷ (codes "TIMER", 2 ^ 5)
        ∷ (codes "EXTERNAL", 2 ^ 9) ∷ [] };

    ghost set_of = { λ interrupts. interrupts.0 };

    fn flags<'a>() -> &'a [Flag<Interrupts>] {
        Interrupts::FLAGS
    }

    fn bits(&self) -> u64 {
        self.0
    }

    fn from_bits_retain(bits: u64) -> Interrupts {
        Interrupts(bits)
    }
}
