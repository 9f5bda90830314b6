//! A device on the bus of a guest.
ghost use Rattle.std.specs.Prelude.{◌≡◌, ℕ, Bool};
ghost use Rattle.xv_bus.specs.Access.{Fits};
ghost use Rattle.xv_bus.specs.Device.{Accessed};
ghost use Rattle.xv_bus.specs.Memory.{Flat, with_cells};

use crate::access::{Access, Outcome};
use crate::memory::GuestMem;

/// A device, whose registers are reached at offsets from its base, and whose line may be up. An
/// access changes the device and, through the memory that is lent to it, cells of the guest:
/// nothing else.
pub trait Device {
    ghost use Rattle.xv_bus.specs.declared.access.Access.{Access};

    /// What an access at an offset makes of the device and of the cells, and what it comes to.
    ghost accessed: { Self → Flat → ℕ → Access → Accessed Self };

    ghost is_up: { Self → Bool };

    ghost after_reset: { Self → Self };

    /// One access at an offset.
    fn access<M: GuestMem>(&mut self, at: u64, access: Access, mem: &mut M) -> Outcome
        requires { Fits access }
        ensures outcome { result ≡ (accessed self.old (M.flat mem.old) at access).outcome }
        ensures device { self.new ≡ (accessed self.old (M.flat mem.old) at access).device }
        ensures cells { M.flat mem.new ≡
            with_cells (M.flat mem.old) (accessed self.old (M.flat mem.old) at access).cells }
        ensures rest { M.rest mem.new ≡ M.rest mem.old };

    /// Whether the line of the device is up.
    fn line(&self) -> bool
        ensures { result ≡ is_up self.now };

    /// Brings the device to its state after a reset.
    fn reset(&mut self)
        ensures { self.new ≡ after_reset self.old };
}
