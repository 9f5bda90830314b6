//! Why regions can't stand together.
ghost use Rattle.std.specs.Prelude.{◌≡◌};
ghost use Rattle.xv_region.specs.declared.fault.RegionFault.TheVariants.{NoMemory};

use std::alloc::AllocError;

/// The first rule that regions break, with their numbers from 0; or want of memory.
#[derive(Clone, Copy, Debug, PartialEq, Eq)]
pub enum RegionFault {
    /// The second region shares a byte with the first, which is an earlier one.
    Overlap(u8, u8),
    /// The alias doesn't name memory that lies wholly in one region, or isn't aligned.
    BadAlias(u8),
    /// The reserved range leaves the reserved area, meets an earlier one, or isn't aligned.
    BadHost(u8),
    NoMemory,
}

impl From<AllocError> for RegionFault {
    ghost from_gives = { λ _ e. e ≡ NoMemory };

    fn from(_: AllocError) -> RegionFault {
        RegionFault::NoMemory
    }
}
