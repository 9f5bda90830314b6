//! A guest's own memory, as its devices reach it.
ghost use Rattle.std.specs.Prelude.{◌≡◌, is_some, unwrap_or};
ghost use Rattle.xv_bus.specs.Memory.{stored};
ghost use Rattle.xv_lone.specs.Device.{flat_of};
ghost use Rattle.xv_guest.specs.Held.{IsHeld, WithinMemory, memory_of};
ghost use Rattle.xv_guest.specs.OwnMemory.{bare_plan};

use crate::held::Held;
use std::marker::Model;
use xv_bus::GuestMem;
use xv_mem::HostMem;
use xv_region::Cell;

/// What a guest holds over the memory of its host, of which its devices reach the cells that are
/// its own.
#[derive(Drop)]
pub(crate) struct OwnMemory<'a> {
    held: Held<'a>,
    mem: HostMem,
}

impl<'a> Model for OwnMemory<'a> {
    ghost use Rattle.xv_guest.specs.OwnMemory.{OwnMemory};

    ghost Value = { OwnMemory };

    ghost use Rattle.xv_guest.specs.Held.{IsHeld};

    ghost view = { λ own. record { held = own.held; bytes = own.mem } };

    ghost invariant = { λ own. IsHeld own.mem own.held };
}

impl<'a> OwnMemory<'a> {
    pub(crate) fn new(held: Held<'a>, mem: HostMem) -> OwnMemory<'a>
        requires { IsHeld mem held }
        ensures { result ≡ record { held = held.entry; bytes = mem } }
    {
        OwnMemory { held, mem }
    }

    /// The memory of the host again.
    pub(crate) fn into_mem(self) -> HostMem
        ensures bytes { result ≡ self.entry.bytes }
        ensures held { IsHeld result self.entry.held }
    {
        self.mem
    }
}

impl<'a> GuestMem for OwnMemory<'a> {
    ghost use Rattle.xv_guest.specs.OwnMemory.{Behind, behind, flat_memory};

    ghost flat = { flat_memory };

    ghost Rest = { Behind };

    ghost rest = { behind };

    fn load(&mut self, gpa: u64, buf: &mut [u8]) -> bool {
        self.held.peek(&self.mem, gpa, buf)
    }

    fn store(&mut self, gpa: u64, bytes: &[u8]) -> bool {
        self.held.write(&mut self.mem, gpa, bytes)
    }
}

impl<'a> Held<'a> {
    /// Puts bytes where a device wants them. A ROM takes none.
    fn write(&self, mem: &mut HostMem, gpa: u64, bytes: &[u8]) -> bool
        requires held { IsHeld mem.old self.now }
        ensures there { result ≡ is_some (stored (flat_of (bare_plan self.now)
            (memory_of mem.old self.now)) gpa bytes.now) }
        ensures stored { memory_of mem.new self.now ≡ unwrap_or (stored (flat_of
            (bare_plan self.now) (memory_of mem.old self.now)) gpa bytes.now)
            (memory_of mem.old self.now) }
        ensures within { WithinMemory self.now mem.old mem.new }
    {
        match self.cell(gpa, bytes.len()) {
            Cell::Memory {
                region,
                offset,
                writable,
            } => {
                if !writable {
                    return false;
                }
                self.put_bytes(mem, region, offset, bytes);
                true
            }
            Cell::Device {
                region: _,
                offset: _,
            } => false,
            Cell::Nothing => false,
        }
    }
}
