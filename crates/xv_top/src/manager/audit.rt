//! `guest audit`
ghost use Rattle.std.specs.Prelude.{◌≡◌, []};

use super::Manager;
use crate::report;
use xv_base::GuestName;
use xv_hart::Machine;
use xv_print::Printer;

impl Manager {
    ghost use Rattle.xv_top.specs.Contents.{audit_guest};
    ghost use Rattle.xv_top.specs.Manager.{world_of, Gives, IsSound};
    ghost use Rattle.xv_top.specs.World.{guest_named};

    /// `guest audit NAME`
    pub(super) fn audit(&self, machine: &Machine, name: &GuestName, printer: &mut Printer)
        requires empty { printer.old ≡ [] }
        requires sound { IsSound self.now machine.now }
        ensures { let w = world_of self.now machine.now.mem in
            Gives (audit_guest w name.now (guest_named name.now w))
            self.now self.now machine.now machine.now printer.new }
    {
        let Some(key) = self.there(name, printer) else {
            return;
        };
        let pages = self.host.audit(machine, key);
        report::audit(printer, name.bytes(), pages);
    }
}
