//! `guest kick`
ghost use Rattle.std.specs.Prelude.{◌≡◌, []};

use super::Manager;
use crate::{refusals, report};
use xv_base::GuestName;
use xv_host::Change;
use xv_print::Printer;

impl Manager {
    ghost use Rattle.xv_top.specs.Commands.{kick_guest};
    ghost use Rattle.xv_top.specs.Manager.{world_of, Gives, HasGuests, IsSound};
    ghost use Rattle.xv_top.specs.World.{guest_named};
    ghost use Rattle.xv_hart.specs.declared.machine.Machine.{Machine};

    /// `guest kick NAME`
    pub(super) fn kick(&mut self, name: &GuestName, printer: &mut Printer)
        requires empty { printer.old ≡ [] }
        requires guests { HasGuests self.old.guest self.old.host.guests }
        ensures answer { (machine : Machine) → let w = world_of self.old machine.mem in
            Gives (kick_guest w name.now (guest_named name.now w))
            self.old self.new machine machine printer.new }
        ensures sound { (machine : Machine) → IsSound self.old machine → IsSound self.new machine }
    {
        let Some(key) = self.there(name, printer) else {
            return;
        };
        let Ok(()) = self.host.change(key, Change::Kick) else {
            return refusals::refused(printer, b"state");
        };
        report::kicked(printer, name.bytes());
    }
}
