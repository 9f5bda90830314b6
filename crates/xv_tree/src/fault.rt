//! Why a tree describes no guest.
ghost use Rattle.std.specs.Prelude.{◌≡◌};
ghost use Rattle.xv_tree.specs.declared.fault.PlanFault.TheVariants.{NoMemory};

use std::alloc::{AllocError, AllocFailed};

/// Which rule a tree breaks.
#[derive(Clone, Copy, Debug, PartialEq, Eq)]
pub enum PlanKind {
    /// The root has no child `aspace`.
    NoAspace,
    /// The root has no child `vcpus`, or that has no child.
    NoVcpus,
    /// `vcpus` has more than 8 children.
    TooManyVcpus,
    /// `aspace` describes more than 32 regions.
    TooManyRegions,
    /// A `manifest_type` is none of `real`, `virtual` and `alias`.
    BadManifest,
    /// A real region's `device_type` is missing or unknown, a second PLIC, or a UART's `reg-shift`
    /// is none of 0 to 2.
    BadKind,
    /// A region's first address is missing, not aligned, or not below 2^41.
    BadAddress,
    /// A region's size is missing, 0 or not aligned, or its end lies past 2^41.
    BadSize,
    /// A VCPU's start is missing or not aligned.
    BadStart,
    /// A VCPU's priority is none of 0 to 7.
    BadPriority,
    /// A UART's interrupt is none of 1 to 63, or another one's.
    BadIrq,
    /// An alias doesn't name memory that lies wholly in one region, or isn't aligned.
    BadAlias,
    /// A reserved range leaves the host's reserved area, meets an earlier one, or isn't aligned.
    BadHost,
}

/// The first rule that a tree breaks: with the number of the node at which it does, where nodes are
/// numbered from 0 in order of their begin tokens; or of two regions, numbered from 0, that share a
/// byte. Or want of memory.
#[derive(Clone, Copy, Debug, PartialEq, Eq)]
pub enum PlanFault {
    At { kind: PlanKind, node: u32 },
    Overlap(u8, u8),
    NoMemory,
}

impl From<AllocError> for PlanFault {
    ghost from_gives = { λ _ e. e ≡ NoMemory };

    fn from(_: AllocError) -> PlanFault {
        PlanFault::NoMemory
    }
}

impl<T: Drop> From<AllocFailed<T>> for PlanFault {
    ghost from_gives = { λ _ e. e ≡ NoMemory };

    fn from(_: AllocFailed<T>) -> PlanFault {
        PlanFault::NoMemory
    }
}
