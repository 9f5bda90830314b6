//! `guest poke`
ghost use Rattle.std.specs.Prelude.{◌≡◌, [], length};

use super::Manager;
use crate::report;
use xv_base::GuestName;
use xv_hart::Machine;
use xv_print::Printer;

impl Manager {
    ghost use Rattle.xv_top.specs.Contents.{poke_guest};
    ghost use Rattle.xv_top.specs.Manager.{world_of, Gives, IsSound};
    ghost use Rattle.xv_top.specs.World.{guest_named};

    /// `guest poke NAME GPA HEX`
    pub(super) fn poke(
        &mut self,
        machine: &mut Machine,
        name: &GuestName,
        gpa: u64,
        bytes: &[u8],
        printer: &mut Printer,
    )
        requires empty { printer.old ≡ [] }
        requires sound { IsSound self.old machine.old }
        ensures answer { let w = world_of self.old machine.old.mem in
            Gives (poke_guest w name.now gpa bytes.now (guest_named name.now w))
            self.old self.new machine.old machine.new printer.new }
        ensures sound { IsSound self.new machine.new }
        ensures machine { machine.new ≡ record machine.old { mem = machine.new.mem } }
        ensures size { length machine.new.mem ≡ length machine.old.mem }
    {
        let Some(key) = self.at_reset(name, printer) else {
            return;
        };
        if self.put(machine, name, key, gpa, bytes, printer) {
            report::poked(printer, name.bytes(), bytes.len() as u64);
        }
    }
}
