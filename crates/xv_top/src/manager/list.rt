//! `guest list`
ghost use Rattle.std.specs.Prelude.{◌≡◌, []};

use super::Manager;
use crate::lists;
use xv_print::Printer;

impl Manager {
    ghost use Rattle.xv_top.specs.Commands.{list_answer};
    ghost use Rattle.xv_top.specs.Manager.{world_of, Gives, HasGuests};
    ghost use Rattle.xv_hart.specs.declared.machine.Machine.{Machine};

    /// `guest list`
    pub(super) fn list(&self, printer: &mut Printer)
        requires empty { printer.old ≡ [] }
        requires guests { HasGuests self.now.guest self.now.host.guests }
        ensures { (machine : Machine) → Gives (list_answer (world_of self.now machine.mem))
            self.now self.now machine machine printer.new }
    {
        let Some(one) = self.guest else {
            return lists::guests(printer, 0);
        };
        let guest = self.host.guest(one.key);
        let vcpus = guest.plan().vcpus.len() as u64;
        lists::guests(printer, 1);
        lists::guest(printer, one.name.bytes(), guest.state(), vcpus);
    }
}
