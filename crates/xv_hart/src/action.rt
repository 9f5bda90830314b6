//! What an instruction asks of the hart, in types of the hart's own.
ghost use Rattle.std.specs.Prelude.{◌≡◌};
ghost use Rattle.xv_hart.specs.Action.{bytes_of};

use xv_isa::Op;

/// How many bytes an access to memory has.
#[derive(Clone, Copy, Debug, PartialEq, Eq)]
pub(crate) enum Width {
    W1,
    W2,
    W4,
    W8,
}

impl Width {
    /// The number of bytes.
    pub fn bytes(self) -> u8
        ensures { result ≡ bytes_of self }
    {
        match self {
            Width::W1 => 1,
            Width::W2 => 2,
            Width::W4 => 4,
            Width::W8 => 8,
        }
    }
}

/// What becomes of a CSR: a number written, bits set, bits cleared, or nothing.
#[derive(Clone, Copy)]
pub(crate) enum CsrChange {
    Written(u64),
    BitsSet(u64),
    BitsCleared(u64),
    Unwritten,
}

/// What an instruction asks for. Addresses are virtual. A branch that is taken links x0, and one
/// that isn't continues.
#[derive(Clone, Copy)]
pub(crate) enum Action {
    Set {
        rd: u8,
        value: u64,
    },
    Jump {
        target: u64,
        rd: u8,
        link: u64,
    },
    Load {
        width: Width,
        signed: bool,
        va: u64,
        rd: u8,
    },
    Store {
        width: Width,
        va: u64,
        value: u64,
    },
    LoadReserved {
        width: Width,
        va: u64,
        rd: u8,
    },
    StoreConditional {
        width: Width,
        va: u64,
        value: u64,
        rd: u8,
    },
    Modify {
        op: Op,
        width: Width,
        va: u64,
        value: u64,
        rd: u8,
    },
    AccessCsr {
        number: u16,
        change: CsrChange,
        rd: u8,
    },
    FenceTranslations,
    Continue,
    EnvironmentCall,
    Breakpoint,
    SupervisorReturn,
    WaitForInterrupt,
}
