//! A guest's memory, by guest physical addresses, and what of it is led right.
ghost use Rattle.std.specs.Prelude.{◌≡◌, ◌<◌, ℕ, length, true, Some, None, is_some, IsSome, OnOk};
ghost use Rattle.std.specs.Prelude.{OnErr, sum_by};
ghost use Rattle.std.specs.List.{concat};
ghost use Rattle.sha2.specs.Sha256.{sha256};
ghost use Rattle.xv_gstage.specs.Audit.{mapped_pages};
ghost use Rattle.xv_region.specs.Rules.{Accepted};
ghost use Rattle.xv_guest.specs.Guest.{held_of, lone_of};
ghost use Rattle.xv_guest.specs.Held.{IsHeld};
ghost use Rattle.xv_lone.specs.Journal as journal;
ghost use Rattle.xv_lone.specs.Memory.{peeked, spot_at};
ghost use Rattle.xv_host.specs.Change.{IsChange, OfGuest};
ghost use Rattle.xv_host.specs.Host.{IsHosted};
ghost use Rattle.xv_host.specs.Places.{guest_at};

use crate::host::Host;
use std::marker::Brand;
use std::sync::ledger::{Blank, Ledger};
use xv_base::GuestKey;
use xv_gstage::audit;
use xv_guest::Guest;
use xv_hart::Machine;
use xv_mem::{HostMem, Steps};

/// The bytes don't lie wholly in one region of memory.
#[derive(Clone, Copy, Debug, PartialEq, Eq)]
pub struct Outside;

impl Host {
    /// Puts bytes into the memory of a live guest at a guest physical address, where also a ROM
    /// takes them. It is refused where they don't lie wholly in one region of memory or an alias,
    /// and then nothing changes.
    pub fn store(
        &mut self,
        machine: &mut Machine,
        key: GuestKey,
        gpa: u64,
        bytes: &[u8],
    ) -> Result<(), Outside>
        requires live { IsSome (guest_at self.old.guests key) }
        requires hosted { IsHosted self.old machine.old.mem }

        ensures stored { OnOk result (IsChange (journal.Load gpa bytes.now) key
            self.old self.new machine.old.mem machine.new.mem) }
        ensures inside { OnOk result (OfGuest self.old.guests key
            (λ g. IsSome (spot_at g.plan (length bytes.now) gpa))) }
        ensures outside { OnErr result (OfGuest self.old.guests key
            (λ g. spot_at g.plan (length bytes.now) gpa ≡ None)) }
        ensures pool { self.new.pool ≡ self.old.pool }
        ensures unchanged { OnErr result (self.new ≡ self.old) }
        ensures untouched { OnErr result (machine.new ≡ machine.old) }
        ensures hosted { IsHosted self.new machine.new.mem }
        ensures machine { machine.new ≡ record machine.old { mem = machine.new.mem } }
        ensures size { length machine.new.mem ≡ length machine.old.mem }
    {
        if self.guest(key).store(&mut machine.mem, gpa, bytes) {
            Ok(())
        } else {
            Err(Outside)
        }
    }

    /// Shows the bytes of a live guest's memory from a guest physical address on, as many as the
    /// buffer has. It is refused where they don't lie wholly in one region of memory or an alias,
    /// and then the buffer stays.
    pub fn peek(
        &self,
        machine: &Machine,
        key: GuestKey,
        gpa: u64,
        buf: &mut [u8],
    ) -> Result<(), Outside>
        requires live { IsSome (guest_at self.now.guests key) }
        requires hosted { IsHosted self.now machine.now.mem }

        ensures bytes { OnOk result (OfGuest self.now.guests key (λ g.
            peeked g.plan (lone_of g machine.now.mem).memory gpa (length buf.old)
            ≡ Some buf.new)) }
        ensures outside { OnErr result (OfGuest self.now.guests key (λ g.
            peeked g.plan (lone_of g machine.now.mem).memory gpa (length buf.old) ≡ None)) }
        ensures untouched { OnErr result (buf.new ≡ buf.old) }
    {
        if self.guest(key).peek(&machine.mem, gpa, buf) {
            Ok(())
        } else {
            Err(Outside)
        }
    }

    /// The SHA-256 of the bytes of a live guest's regions, in their order.
    pub fn digest(&self, machine: &Machine, key: GuestKey) -> [u8; 32]
        requires live { IsSome (guest_at self.now.guests key) }
        requires hosted { IsHosted self.now machine.now.mem }

        ensures digest { OfGuest self.now.guests key (λ g.
            result ≡ sha256 (concat (lone_of g machine.now.mem).memory)) }
    {
        self.guest(key).digest(&machine.mem)
    }

    /// How many pages of a live guest's memory regions and aliases are led to their own frame with
    /// the right permission, which is all of them.
    pub fn audit(&self, machine: &Machine, key: GuestKey) -> u64
        requires live { IsSome (guest_at self.now.guests key) }
        requires hosted { IsHosted self.now machine.now.mem }

        ensures pages { OfGuest self.now.guests key (λ g.
            result ≡ sum_by mapped_pages g.plan.regions) }
    {
        audit_of::<Brand>(&machine.mem, self.guest(key), Blank::new(1))
    }
}

/// How many pages of a guest are led right. The accesses to host memory are counted in a ledger of
/// their own.
fn audit_of<L: Ledger>(mem: &HostMem, guest: &Guest, blank: Blank) -> u64
    requires name { blank.name ≡ L.name }
    requires parts { blank.parts ≡ L.parts }
    requires part { 0 < blank.parts }
    requires held { IsHeld mem.now (held_of guest.now) }
    requires accepted { Accepted guest.now.plan.regions }
    requires root { is_some guest.now.root ≡ true }
    ensures { result ≡ sum_by mapped_pages guest.now.plan.regions }
{
    let mut steps = Steps::<L>::open(blank);
    audit(mem, guest.root(), guest.map(), guest.frames(), &mut steps)
}
