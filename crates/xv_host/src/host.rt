//! The host: its live guests, and what each holds of host memory.
ghost use Rattle.std.specs.Prelude.{◌≡◌, ◌≢◌, ◌≤◌, ℕ, None, Some, IfOk, IfErr, OnOk, OnErr, IsSome};
ghost use Rattle.std.specs.Prelude.{IsTrue, Ok};
ghost use Rattle.std.specs.Prelude.{replicate, slice_set, length};
ghost use Rattle.std.specs.List.{All};
ghost use Rattle.xv_csr.specs.Fields.{IsInstructionAddress};
ghost use Rattle.xv_region.specs.Need.{need};
ghost use Rattle.xv_region.specs.Rules.{Accepted, are_sound, first_fault};
ghost use Rattle.xv_lone.specs.Machine.{new_machine};
ghost use Rattle.xv_pool.specs.Resources.{tested};
ghost use Rattle.xv_guest.specs.Frames.{reserved_ranges};
ghost use Rattle.xv_guest.specs.Guest.{lone_of};
ghost use Rattle.xv_host.specs.Holdings.{OthersStay};
ghost use Rattle.xv_host.specs.Host.{IsHosted, IsFresh, IsRefusal, admitted};
ghost use Rattle.xv_host.specs.Places.{guest_at, IsLeast};

use crate::table::Table;
use std::alloc::Global;
use std::marker::Model;
use xv_base::{GuestKey, NoMemory};
use xv_guest::{Guest, GuestState, reserved_ranges};
use xv_hart::Machine;
use xv_pool::{Pool, PoolFault};
use xv_region::{Plan, need_of};

/// Frames that are kept for the root tables of sixteen guests.
const ROOT_FRAMES: u32 = 64;

/// Bytes in a frame.
const FRAME_SIZE: u64 = 4096;

/// Why a guest isn't admitted.
#[derive(Clone, Copy, Debug, PartialEq, Eq)]
pub enum Admit {
    /// What it needs can't be had.
    Pool(PoolFault),
    NoMemory,
}

/// The live guests by their keys, and what the host has to hand out.
#[derive(Drop)]
pub struct Host {
    pub(crate) guests: Table<Guest>,
    pool: Pool,
}

impl Model for Host {
    ghost use Rattle.xv_host.specs.Host.{Host};

    ghost Value = { Host };

    ghost view = { λ host. record { pool = host.pool; guests = host.guests } };
}

impl Host {
    /// A host without guests over a machine of zeros.
    pub fn new(alloc: Global, machine: &Machine) -> Result<Host, NoMemory>
        requires fresh { IsFresh machine.now }
        ensures empty { IfOk result (λ host. host.guests ≡ replicate 16 None) }
        ensures area { IfOk result (λ host. host.pool.area ≡ machine.now.area) }
        ensures hosted { IfOk result (λ host. IsHosted host machine.now.mem) }
    {
        let area = machine.area();
        let frames = (area.start / FRAME_SIZE) as u32 - ROOT_FRAMES;
        let pool = Pool::new(alloc, ROOT_FRAMES, frames, area)?;
        let guests = Table::new(alloc)?;
        Ok(Host { guests, pool })
    }

    /// The live guest of a key.
    pub fn guest(&self, key: GuestKey) -> &Guest
        requires { IsSome (guest_at self.now.guests key) }
        ensures { guest_at self.now.guests key ≡ Some result.now }
    {
        let Some(guest) = self.guests.get(key) else {
            unreachable!("the guest is live");
        };
        guest
    }

    /// Whether a guest of a plan can be had.
    fn test(&self, alloc: Global, plan: &Plan) -> Result<(), Admit>
        requires accepted { Accepted plan.now.regions }
        ensures had { OnOk result (tested self.now.pool (need plan.now.regions)
            (reserved_ranges plan.now.regions) ≡ Ok tt) }
        ensures refused { IfErr result (IsRefusal (tested self.now.pool (need plan.now.regions)
            (reserved_ranges plan.now.regions))) }
    {
        let Ok(ranges) = reserved_ranges(alloc, &plan.regions) else {
            return Err(Admit::NoMemory);
        };
        if let Err(fault) = self.pool.test(need_of(&plan.regions), &ranges) {
            return Err(Admit::Pool(fault));
        }
        Ok(())
    }

    /// A guest of a plan that keeps the rules over the machine's area, born at a clock, under the
    /// least free key. It is refused where the pool hasn't what it needs, and then nothing changes.
    pub fn admit(
        &mut self,
        alloc: Global,
        machine: &mut Machine,
        plan: Plan,
        clock: u64,
    ) -> Result<GuestKey, Admit>
        requires sound { IsTrue (are_sound plan.regions) }
        requires faultless { first_fault machine.old.area plan.regions ≡ None }
        requires starts { All (λ v. IsInstructionAddress v.start) plan.vcpus }
        requires vcpus { length plan.vcpus ≤ 8 }
        requires area { machine.old.area ≡ self.old.pool.area }
        requires hosted { IsHosted self.old machine.old.mem }

        ensures key { IfOk result (λ key. IsLeast self.old.guests key) }
        ensures guests { IfOk result (λ key. self.new.guests ≡
            slice_set self.old.guests key (Some (admitted self.old.pool plan key clock))) }
        ensures born { IfOk result (λ key. lone_of (admitted self.old.pool plan key clock)
            machine.new.mem ≡ new_machine plan clock) }
        ensures others { IfOk result (λ key. OthersStay key machine.old.mem machine.new.mem
            self.old.guests self.new.guests) }
        ensures had { OnOk result (tested self.old.pool (need plan.regions)
            (reserved_ranges plan.regions) ≡ Ok tt) }

        ensures refused { IfErr result (IsRefusal (tested self.old.pool (need plan.regions)
            (reserved_ranges plan.regions))) }
        ensures unchanged { OnErr result (self.new ≡ self.old) }
        ensures untouched { OnErr result (machine.new ≡ machine.old) }

        ensures hosted { IsHosted self.new machine.new.mem }
        ensures area { self.new.pool.area ≡ self.old.pool.area }
        ensures count { self.new.pool.count ≡ self.old.pool.count }
        ensures machine { machine.new ≡ record machine.old { mem = machine.new.mem } }
        ensures size { length machine.new.mem ≡ length machine.old.mem }
    {
        self.test(alloc, &plan)?;
        let Some(key) = self.guests.least_key() else {
            unreachable!("a root can be had");
        };
        let Ok(mut guest) = Guest::make(alloc, plan, key, machine.area) else {
            return Err(Admit::NoMemory);
        };
        guest.take(&mut machine.mem, &mut self.pool);
        guest.put(GuestState::Reset, clock);
        self.guests.put(key, guest);
        Ok(key)
    }

    /// Gives back all that a live guest holds, made zero, and the guest is no more.
    pub fn release(&mut self, machine: &mut Machine, key: GuestKey)
        requires live { IsSome (guest_at self.old.guests key) }
        requires hosted { IsHosted self.old machine.old.mem }
        ensures released { self.new.guests ≡ slice_set self.old.guests key None }
        ensures others { OthersStay key machine.old.mem machine.new.mem
            self.old.guests self.new.guests }
        ensures hosted { IsHosted self.new machine.new.mem }
        ensures area { self.new.pool.area ≡ self.old.pool.area }
        ensures count { self.new.pool.count ≡ self.old.pool.count }
        ensures machine { machine.new ≡ record machine.old { mem = machine.new.mem } }
        ensures size { length machine.new.mem ≡ length machine.old.mem }
    {
        let mut guest = self.guests.take(key);
        guest.give(&mut machine.mem, &mut self.pool);
    }
}
