//! `guest flat`
ghost use Rattle.std.specs.Prelude.{◌≡◌, ◌≤◌, [], length, true, OnOk, OnErr, IsErrOf};
ghost use Rattle.xv_script.specs.Command.{most_pages};

use super::Manager;
use crate::plan::flat;
use crate::stop::LineStop;
use std::alloc::Global;
use xv_base::GuestName;
use xv_hart::Machine;
use xv_print::Printer;

impl Manager {
    ghost use Rattle.xv_script.specs.declared.command.Command.TheVariants as command;
    ghost use Rattle.xv_top.specs.Births.{flat_answer};
    ghost use Rattle.xv_top.specs.Commands.{may_want_memory};
    ghost use Rattle.xv_top.specs.Manager.{world_of, Gives, HasStopped, IsSound};

    /// `guest flat NAME PAGES`
    pub(super) fn flat(
        &mut self,
        alloc: Global,
        machine: &mut Machine,
        name: &GuestName,
        pages: u32,
        printer: &mut Printer,
    ) -> Result<(), LineStop>
        requires empty { printer.old ≡ [] }
        requires pages { (1 ≤ pages) × (pages ≤ most_pages) }
        requires sound { IsSound self.old machine.old }
        ensures answer { OnOk result (Gives
            (flat_answer (world_of self.old machine.old.mem) name.now pages)
            self.old self.new machine.old machine.new printer.new) }
        ensures stopped { OnErr result
            (HasStopped self.old self.new machine.old machine.new printer.new) }
        ensures file { IsErrOf result LineStop.FileFault → ⊥ }
        ensures want { OnErr result (may_want_memory (world_of self.old machine.old.mem)
            (command.Flat name.now pages) ≡ true) }
        ensures sound { IsSound self.new machine.new }
        ensures machine { machine.new ≡ record machine.old { mem = machine.new.mem } }
        ensures size { length machine.new.mem ≡ length machine.old.mem }
    {
        if !self.is_alone(name, printer) {
            return Ok(());
        }
        let Ok(plan) = flat(alloc, pages) else {
            return Err(LineStop::NoMemory);
        };
        self.admit(alloc, machine, name, plan, printer)
    }
}
