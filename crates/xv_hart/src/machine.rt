//! The machine: host memory, and the hart that runs over it.
ghost use Rattle.std.specs.Prelude.{◌≡◌, ◌*◌, ◌-◌, ◌≤◌, ◌↔◌, [], replicate, IsTrue, OnOk, OnErr};

use crate::hart::Hart;
use crate::regs::Regs;
use std::alloc::Global;
use xv_base::{NoMemory, Span};
use xv_mem::HostMem;

/// Frames of 4,096 bytes in one MiB.
const FRAMES_PER_MIB: u32 = 256;

/// Bytes in one MiB.
const MIB: u64 = 1 << 20;

/// Host memory, the hart that runs over it, and the part of memory that is reserved for guests
/// which name host addresses.
#[derive(Drop)]
pub struct Machine {
    /// Host memory: whole MiBs, or none.
    pub mem: HostMem,
    pub hart: Hart,
    /// The reserved area, in host addresses.
    pub area: Span,
}

impl Machine {
    ghost use Rattle.xv_hart.specs.Hart.{regs_of, taken_by, trail_of};
    ghost use Rattle.xv_hart.specs.Machine.{IsBare, IsFit, area_of};

    /// A machine with no memory and no reserved area, whose hart has zeros in all registers, has
    /// taken no step and has an empty trail.
    pub fn bare() -> Machine
        ensures { IsBare result }
    {
        Machine {
            mem: HostMem::empty(),
            hart: Hart::zero(),
            area: Span { start: 0, len: 0 },
        }
    }

    /// Gives a bare machine `mib` MiB of memory, each byte 0, of which the last `reserved_mib` MiB
    /// are reserved, and room for the trail. After an `Err`, which comes for want of memory alone,
    /// it is still bare.
    pub fn fit(&mut self, alloc: Global, mib: u32, reserved_mib: u32) -> Result<(), NoMemory>
        requires bare { IsBare self.old }
        requires least { 8 ≤ mib }
        requires most { mib ≤ 512 }
        requires reserved { 4 * reserved_mib ≤ mib }
        ensures memory { OnOk result (self.new.mem ≡ replicate (4096 * (256 * mib)) 0) }
        ensures area { OnOk result (self.new.area ≡ area_of mib reserved_mib) }
        ensures fit { OnOk result (IsFit self.new) }
        ensures regs { OnOk result (regs_of self.new.hart ≡ regs_of self.old.hart) }
        ensures taken { OnOk result (taken_by self.new.hart ≡ 0) }
        ensures trail { OnOk result (trail_of self.new.hart ≡ []) }
        ensures err { OnErr result (self.new ≡ self.old) }
    {
        let Ok(mem) = HostMem::zeroed(alloc, FRAMES_PER_MIB * mib) else {
            return Err(NoMemory);
        };
        let Ok(()) = self.hart.make_room(alloc) else {
            return Err(NoMemory);
        };
        self.mem = mem;
        self.area = Span {
            start: u64::from(mib - reserved_mib) * MIB,
            len: u64::from(reserved_mib) * MIB,
        };
        Ok(())
    }

    /// The reserved area, in host addresses.
    pub fn area(&self) -> Span
        ensures { result ≡ self.now.area }
    {
        self.area
    }

    /// Whether the machine is as `bare` makes it.
    pub fn is_bare(&self) -> bool
        ensures { IsTrue result ↔ IsBare self.now }
    {
        self.mem.frames() == 0 && self.hart.is_zero() && self.area.start == 0 && self.area.len == 0
    }
}
