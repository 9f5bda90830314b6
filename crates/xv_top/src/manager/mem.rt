//! `guest mem`
ghost use Rattle.std.specs.Prelude.{◌≡◌, ◌≤◌, []};
ghost use Rattle.xv_script.specs.Command.{most_shown};

use super::Manager;
use crate::{refusals, report};
use xv_base::GuestName;
use xv_hart::Machine;
use xv_print::Printer;

/// The most bytes that one line shows.
const MOST_SHOWN: usize = 4096;

impl Manager {
    ghost use Rattle.xv_top.specs.Contents.{mem_guest};
    ghost use Rattle.xv_top.specs.Manager.{world_of, Gives, IsSound};
    ghost use Rattle.xv_top.specs.World.{guest_named};

    /// `guest mem NAME GPA LEN`
    pub(super) fn mem(
        &self,
        machine: &Machine,
        name: &GuestName,
        gpa: u64,
        len: u32,
        printer: &mut Printer,
    )
        requires empty { printer.old ≡ [] }
        requires few { len ≤ most_shown }
        requires sound { IsSound self.now machine.now }
        ensures { let w = world_of self.now machine.now.mem in
            Gives (mem_guest w name.now gpa len (guest_named name.now w))
            self.now self.now machine.now machine.now printer.new }
    {
        let Some(key) = self.there(name, printer) else {
            return;
        };
        let mut shown = [0; MOST_SHOWN];
        let front = &mut shown[..len as usize];
        let Ok(()) = self.host.peek(machine, key, gpa, front) else {
            return refusals::refused(printer, b"outside");
        };
        report::mem(printer, name.bytes(), gpa, front);
    }
}
