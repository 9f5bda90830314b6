//! Why a file is no flattened tree.
ghost use Rattle.std.specs.Prelude.{◌≡◌, ◌<◌, ◌^◌};
ghost use Rattle.xv_fdt.specs.declared.fault.FdtFault.TheVariants.{At, NoMemory};

use std::alloc::{AllocError, AllocFailed};

/// Which rule a file breaks.
#[derive(Clone, Copy, Debug, PartialEq, Eq)]
pub enum FdtKind {
    /// The file doesn't begin with 0xd00dfeed (5.2).
    BadMagic,
    /// Its version is below 17, or it can't be read as version 17 (5.2).
    BadVersion,
    /// Something runs past the end of the file or of its block.
    Short,
    /// A block isn't aligned or doesn't lie in the file, or a property's name doesn't end in the
    /// strings.
    BadOffset,
    /// A number that is no token, or a property behind a child (5.4).
    BadToken,
    /// A node's or a property's name is malformed, or stands twice (2.2.1, 2.2.4.1).
    BadName,
    /// A begin, an end or a property where nothing allows it (5.4.2).
    Unbalanced,
    /// A node lies deeper than 16.
    TooDeep,
    /// The file has more than 1,048,576 bytes.
    TooBig,
}

/// Why no tree was read: the first rule that the file breaks, with the offset in the file, in
/// bytes, at which it does; or want of memory.
#[derive(Clone, Copy, Debug, PartialEq, Eq)]
pub enum FdtFault {
    At { kind: FdtKind, offset: u32 },
    NoMemory,
}

/// The fault of a rule at a place in the file.
pub(crate) fn fault(kind: FdtKind, place: usize) -> FdtFault
    requires { place < 2 ^ 32 }
    ensures { result ≡ At kind place }
{
    FdtFault::At {
        kind,
        offset: place as u32,
    }
}

impl From<AllocError> for FdtFault {
    ghost from_gives = { λ _ e. e ≡ NoMemory };

    fn from(_: AllocError) -> FdtFault {
        FdtFault::NoMemory
    }
}

impl<T: Drop> From<AllocFailed<T>> for FdtFault {
    ghost from_gives = { λ _ e. e ≡ NoMemory };

    fn from(_: AllocFailed<T>) -> FdtFault {
        FdtFault::NoMemory
    }
}
