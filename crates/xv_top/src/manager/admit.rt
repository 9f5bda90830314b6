//! Whether a guest may be born, and its birth.
ghost use Rattle.std.specs.Prelude.{◌≡◌, ◌≤◌, ℕ, List, [], length, None, true, false, IsTrue, OnOk};
ghost use Rattle.std.specs.Prelude.{OnErr, IsErrOf};
ghost use Rattle.std.specs.List.{All};
ghost use Rattle.xv_csr.specs.Fields.{IsInstructionAddress};
ghost use Rattle.xv_region.specs.Rules.{are_sound, first_fault};

use super::{Manager, Named};
use crate::stop::LineStop;
use crate::{refusals, report};
use std::alloc::Global;
use xv_base::GuestName;
use xv_hart::Machine;
use xv_host::Admit;
use xv_pool::PoolFault;
use xv_print::Printer;
use xv_region::{Plan, need_of};

impl Manager {
    ghost use Rattle.xv_top.specs.Answer.{Answer, says};
    ghost use Rattle.xv_top.specs.Births.{admitted, where_alone};
    ghost use Rattle.xv_top.specs.Manager.{world_of, Gives, HasGuests, HasStopped, IsSound};

    /// Whether no guest lives, so that one of that name may be born, or the line that refuses it is
    /// printed.
    pub(super) fn is_alone(&self, name: &GuestName, printer: &mut Printer) -> bool
        requires empty { printer.old ≡ [] }
        requires guests { HasGuests self.now.guest self.now.host.guests }
        ensures alone { result ≡ true → self.now.guest ≡ None }
        ensures next { result ≡ true → (bytes : List ℕ) (next : Answer) →
            where_alone (world_of self.now bytes) name.now next ≡ next }
        ensures empty { result ≡ true → printer.new ≡ [] }
        ensures refused { result ≡ false → (bytes : List ℕ) (next : Answer) →
            where_alone (world_of self.now bytes) name.now next
            ≡ says (world_of self.now bytes) printer.new }
    {
        if self.key_of(name).is_some() {
            refusals::refused(printer, b"used");
            return false;
        }
        if self.guest.is_some() {
            refusals::refused(printer, b"unbuilt");
            return false;
        }
        true
    }

    /// The birth of a guest of that plan, if there are frames for it.
    pub(super) fn admit(
        &mut self,
        alloc: Global,
        machine: &mut Machine,
        name: &GuestName,
        plan: Plan,
        printer: &mut Printer,
    ) -> Result<(), LineStop>
        requires empty { printer.old ≡ [] }
        requires alone { self.old.guest ≡ None }
        requires sound { IsSound self.old machine.old }
        requires regions { IsTrue (are_sound plan.regions) }
        requires faultless { first_fault machine.old.area plan.regions ≡ None }
        requires starts { All (λ vcpu. IsInstructionAddress vcpu.start) plan.vcpus }
        requires few { length plan.vcpus ≤ 8 }
        ensures answer { OnOk result (Gives
            (admitted (world_of self.old machine.old.mem) name.now plan)
            self.old self.new machine.old machine.new printer.new) }
        ensures stopped { OnErr result
            (HasStopped self.old self.new machine.old machine.new printer.new) }
        ensures file { IsErrOf result LineStop.FileFault → ⊥ }
        ensures sound { IsSound self.new machine.new }
        ensures machine { machine.new ≡ record machine.old { mem = machine.new.mem } }
        ensures size { length machine.new.mem ≡ length machine.old.mem }
    {
        let needed = need_of(&plan.regions);
        let vcpus = plan.vcpus.len() as u64;
        let regions = plan.regions.len() as u64;
        match self.host.admit(alloc, machine, plan, self.clock) {
            Ok(key) => {
                self.guest = Some(Named { name: *name, key });
                self.last = [0; 8];
                report::created(printer, name.bytes(), vcpus, regions, needed);
                Ok(())
            }
            Err(Admit::Pool(PoolFault::NoFrame { need, free })) => {
                refusals::frames(printer, need, free);
                Ok(())
            }
            Err(Admit::Pool(PoolFault::NoRoot)) => unreachable!("every root is free"),
            Err(Admit::Pool(PoolFault::ReservedBusy)) => unreachable!("no range is held"),
            Err(Admit::NoMemory) => Err(LineStop::NoMemory),
        }
    }
}
