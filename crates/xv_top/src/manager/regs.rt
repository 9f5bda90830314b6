//! `guest regs`
ghost use Rattle.std.specs.Prelude.{◌≡◌, []};

use super::Manager;
use crate::{refusals, report};
use xv_base::{GuestName, VcpuNo};
use xv_print::Printer;

impl Manager {
    ghost use Rattle.xv_top.specs.Commands.{regs_guest};
    ghost use Rattle.xv_top.specs.Manager.{world_of, Gives, HasGuests};
    ghost use Rattle.xv_top.specs.World.{guest_named};
    ghost use Rattle.xv_hart.specs.declared.machine.Machine.{Machine};

    /// `guest regs NAME VCPU`
    pub(super) fn regs(&self, name: &GuestName, vcpu: u64, printer: &mut Printer)
        requires empty { printer.old ≡ [] }
        requires guests { HasGuests self.now.guest self.now.host.guests }
        ensures { (machine : Machine) → let w = world_of self.now machine.mem in
            Gives (regs_guest w name.now vcpu (guest_named name.now w))
            self.now self.now machine machine printer.new }
    {
        let Some(key) = self.there(name, printer) else {
            return;
        };
        let guest = self.host.guest(key);
        if vcpu >= guest.plan().vcpus.len() as u64 {
            return refusals::refused(printer, b"vcpu");
        }
        let view = guest.view(VcpuNo(vcpu as u8));
        report::regs(printer, name.bytes(), vcpu, &view);
    }
}
