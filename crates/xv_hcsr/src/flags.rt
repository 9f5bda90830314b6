//! The bits of the hypervisor CSRs that have names of their own.
//!
//! Constants and lists stand here by hand, since `bitflag_items!` would write fourteen operators
//! with them that nothing calls, each to be proved at every check.
ghost use Rattle.std.specs.Prelude.{⊤, ◌^◌, [], ◌∷◌, codes};

use bitflags::{Flag, Flags};

/// Bits of hstatus (Privileged Architecture 20211203, section 8.2.1).
#[derive(Clone, Copy, Debug, PartialEq, Eq)]
pub struct Hstatus(u64);

impl Hstatus {
    pub const SPV: Hstatus = Hstatus(0x80);

    pub const VTVM: Hstatus = Hstatus(0x10_0000);

    pub const VTW: Hstatus = Hstatus(0x20_0000);

    pub const VTSR: Hstatus = Hstatus(0x40_0000);

    pub const FLAGS: &'static [Flag<Hstatus>] = &[
        Flag {
            name: "SPV",
            value: Hstatus::SPV,
        },
        Flag {
            name: "VTVM",
            value: Hstatus::VTVM,
        },
        Flag {
            name: "VTW",
            value: Hstatus::VTW,
        },
        Flag {
            name: "VTSR",
            value: Hstatus::VTSR,
        },
    ];
}

impl Flags for Hstatus {
    type Bits = u64;

    ghost exact = { ⊤ };

    ghost table = { (codes "SPV", 2 ^ 7) ∷ (codes "VTVM", 2 ^ 20) ∷ (codes "VTW", 2 ^ 21)
        ∷ (codes "VTSR", 2 ^ 22) ∷ [] };

    ghost set_of = { λ status. status.0 };

    fn flags<'a>() -> &'a [Flag<Hstatus>] {
        Hstatus::FLAGS
    }

    fn bits(&self) -> u64 {
        self.0
    }

    fn from_bits_retain(bits: u64) -> Hstatus {
        Hstatus(bits)
    }
}

/// The exceptions that a guest takes by itself, as bits of hedeleg (section 8.2.2). Calls from S
/// the hypervisor answers, and access faults it makes of guest-page faults.
#[derive(Clone, Copy, Debug, PartialEq, Eq)]
pub struct GuestExceptions(u64);

impl GuestExceptions {
    pub const FETCH_MISALIGNED: GuestExceptions = GuestExceptions(0x1);

    pub const ILLEGAL_INSTRUCTION: GuestExceptions = GuestExceptions(0x4);

    pub const BREAKPOINT: GuestExceptions = GuestExceptions(0x8);

    pub const LOAD_MISALIGNED: GuestExceptions = GuestExceptions(0x10);

    pub const STORE_MISALIGNED: GuestExceptions = GuestExceptions(0x40);

    pub const USER_CALL: GuestExceptions = GuestExceptions(0x100);

    pub const FETCH_PAGE_FAULT: GuestExceptions = GuestExceptions(0x1000);

    pub const LOAD_PAGE_FAULT: GuestExceptions = GuestExceptions(0x2000);

    pub const STORE_PAGE_FAULT: GuestExceptions = GuestExceptions(0x8000);

    pub const FLAGS: &'static [Flag<GuestExceptions>] = &[
        Flag {
            name: "FETCH_MISALIGNED",
            value: GuestExceptions::FETCH_MISALIGNED,
        },
        Flag {
            name: "ILLEGAL_INSTRUCTION",
            value: GuestExceptions::ILLEGAL_INSTRUCTION,
        },
        Flag {
            name: "BREAKPOINT",
            value: GuestExceptions::BREAKPOINT,
        },
        Flag {
            name: "LOAD_MISALIGNED",
            value: GuestExceptions::LOAD_MISALIGNED,
        },
        Flag {
            name: "STORE_MISALIGNED",
            value: GuestExceptions::STORE_MISALIGNED,
        },
        Flag {
            name: "USER_CALL",
            value: GuestExceptions::USER_CALL,
        },
        Flag {
            name: "FETCH_PAGE_FAULT",
            value: GuestExceptions::FETCH_PAGE_FAULT,
        },
        Flag {
            name: "LOAD_PAGE_FAULT",
            value: GuestExceptions::LOAD_PAGE_FAULT,
        },
        Flag {
            name: "STORE_PAGE_FAULT",
            value: GuestExceptions::STORE_PAGE_FAULT,
        },
    ];
}

impl Flags for GuestExceptions {
    type Bits = u64;

    ghost exact = { ⊤ };

    ghost table = { (codes "FETCH_MISALIGNED", 2 ^ 0) ∷ (codes "ILLEGAL_INSTRUCTION", 2 ^ 2)
        ∷ (codes "BREAKPOINT", 2 ^ 3) ∷ (codes "LOAD_MISALIGNED", 2 ^ 4)
        ∷ (codes "STORE_MISALIGNED", 2 ^ 6) ∷ (codes "USER_CALL", 2 ^ 8)
        ∷ (codes "FETCH_PAGE_FAULT", 2 ^ 12) ∷ (codes "LOAD_PAGE_FAULT", 2 ^ 13)
        ∷ (codes "STORE_PAGE_FAULT", 2 ^ 15) ∷ [] };

    ghost set_of = { λ exceptions. exceptions.0 };

    fn flags<'a>() -> &'a [Flag<GuestExceptions>] {
        GuestExceptions::FLAGS
    }

    fn bits(&self) -> u64 {
        self.0
    }

    fn from_bits_retain(bits: u64) -> GuestExceptions {
        GuestExceptions(bits)
    }
}

/// The interrupts of a guest, as bits of hvip, hip and hideleg (sections 8.2.2 and 8.2.3).
#[derive(Clone, Copy, Debug, PartialEq, Eq)]
pub struct GuestInterrupts(u64);

impl GuestInterrupts {
    pub const SOFTWARE: GuestInterrupts = GuestInterrupts(0x4);

    pub const TIMER: GuestInterrupts = GuestInterrupts(0x40);

    pub const EXTERNAL: GuestInterrupts = GuestInterrupts(0x400);

    pub const FLAGS: &'static [Flag<GuestInterrupts>] = &[
        Flag {
            name: "SOFTWARE",
            value: GuestInterrupts::SOFTWARE,
        },
        Flag {
            name: "TIMER",
            value: GuestInterrupts::TIMER,
        },
        Flag {
            name: "EXTERNAL",
            value: GuestInterrupts::EXTERNAL,
        },
    ];
}

impl Flags for GuestInterrupts {
    type Bits = u64;

    ghost exact = { ⊤ };

    ghost table = { (codes "SOFTWARE", 2 ^ 2) ∷ (codes "TIMER", 2 ^ 6)
        ∷ (codes "EXTERNAL", 2 ^ 10) ∷ [] };

    ghost set_of = { λ interrupts. interrupts.0 };

    fn flags<'a>() -> &'a [Flag<GuestInterrupts>] {
        GuestInterrupts::FLAGS
    }

    fn bits(&self) -> u64 {
        self.0
    }

    fn from_bits_retain(bits: u64) -> GuestInterrupts {
        GuestInterrupts(bits)
    }
}
