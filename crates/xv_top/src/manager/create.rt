//! `guest create`
ghost use Rattle.std.specs.Prelude.{◌≡◌, ◌≤◌, [], length, None, true, Ok, OnOk, OnErr, IsErrOf};
ghost use Rattle.std.specs.Prelude.{IsTrue};
ghost use Rattle.std.specs.List.{All};
ghost use Rattle.xv_base.specs.Fault.{Rose};
ghost use Rattle.xv_csr.specs.Fields.{IsInstructionAddress};
ghost use Rattle.xv_outside.specs.Fetch.{FileMap};
ghost use Rattle.xv_fdt.specs.Grammar.{IsAllowed, tree};
ghost use Rattle.xv_region.specs.Rules.{are_sound, first_fault};

use super::Manager;
use super::fetch::fetch;
use crate::refusals;
use crate::stop::LineStop;
use std::alloc::Global;
use xv_base::{FileName, GuestName};
use xv_fdt::{FdtFault, Tree, read};
use xv_hart::Machine;
use xv_outside::Files;
use xv_print::Printer;
use xv_region::Plan;
use xv_tree::{PlanFault, plan_of};

/// The most bytes of a tree.
const MOST_TREE: usize = 1_048_576;

impl Manager {
    ghost use Rattle.xv_script.specs.declared.command.Command.TheVariants as command;
    ghost use Rattle.xv_tree.specs.Plan.{plan};
    ghost use Rattle.xv_top.specs.Births.{create_answer, tree_answer, plan_answer};
    ghost use Rattle.xv_top.specs.Commands.{is_fetching};
    ghost use Rattle.xv_top.specs.Files.{StandsFor};
    ghost use Rattle.xv_top.specs.Manager.{world_of, Gives, HasStopped, IsSound};

    /// `guest create NAME FILE`
    pub(super) fn create<F: Files>(
        &mut self,
        alloc: Global,
        machine: &mut Machine,
        files: &mut F,
        name: &GuestName,
        file: &FileName,
        printer: &mut Printer,
    ) -> Result<(), LineStop>
        requires empty { printer.old ≡ [] }
        requires sound { IsSound self.old machine.old }
        ensures answer { OnOk result ((told : FileMap) → StandsFor (F.map files.old) told
            (is_fetching (world_of self.old machine.old.mem)
            (command.Create name.now file.now)) →
            Gives (create_answer told (world_of self.old machine.old.mem) name.now file.now)
            self.old self.new machine.old machine.new printer.new) }
        ensures stopped { OnErr result
            (HasStopped self.old self.new machine.old machine.new printer.new) }
        ensures fetching { OnErr result (is_fetching (world_of self.old machine.old.mem)
            (command.Create name.now file.now) ≡ true) }
        ensures sound { IsSound self.new machine.new }
        ensures machine { machine.new ≡ record machine.old { mem = machine.new.mem } }
        ensures size { length machine.new.mem ≡ length machine.old.mem }
        ensures map { F.map files.new ≡ F.map files.old }
        ensures quiet { OnOk result (F.faults files.new ≡ F.faults files.old) }
        ensures cause { IsErrOf result LineStop.FileFault
            → Rose (F.faults files.old) (F.faults files.new) }
        ensures later { F.faults files.old ≤ F.faults files.new }
    {
        if !self.is_alone(name, printer) {
            return Ok(());
        }
        match fetch(alloc, files, file, MOST_TREE, printer) {
            Ok(Some(bytes)) => self.of_bytes(alloc, machine, name, &bytes, printer),
            Ok(None) => Ok(()),
            Err(stop) => Err(stop),
        }
    }

    /// A guest of the tree that these bytes are.
    fn of_bytes(
        &mut self,
        alloc: Global,
        machine: &mut Machine,
        name: &GuestName,
        bytes: &[u8],
        printer: &mut Printer,
    ) -> Result<(), LineStop>
        requires empty { printer.old ≡ [] }
        requires alone { self.old.guest ≡ None }
        requires sound { IsSound self.old machine.old }
        ensures answer { OnOk result (Gives
            (tree_answer (world_of self.old machine.old.mem) name.now (tree bytes.now))
            self.old self.new machine.old machine.new printer.new) }
        ensures stopped { OnErr result
            (HasStopped self.old self.new machine.old machine.new printer.new) }
        ensures file { IsErrOf result LineStop.FileFault → ⊥ }
        ensures sound { IsSound self.new machine.new }
        ensures machine { machine.new ≡ record machine.old { mem = machine.new.mem } }
        ensures size { length machine.new.mem ≡ length machine.old.mem }
    {
        match read(alloc, bytes) {
            Ok(tree) => self.of_tree(alloc, machine, name, &tree, printer),
            Err(FdtFault::At { kind, offset }) => {
                refusals::tree(printer, kind, offset);
                Ok(())
            }
            Err(FdtFault::NoMemory) => Err(LineStop::NoMemory),
        }
    }

    /// A guest of that tree.
    fn of_tree(
        &mut self,
        alloc: Global,
        machine: &mut Machine,
        name: &GuestName,
        tree: &Tree,
        printer: &mut Printer,
    ) -> Result<(), LineStop>
        requires empty { printer.old ≡ [] }
        requires alone { self.old.guest ≡ None }
        requires sound { IsSound self.old machine.old }
        requires allowed { IsAllowed tree.now }
        ensures answer { OnOk result (Gives
            (plan_answer (world_of self.old machine.old.mem) name.now
            (plan tree.now self.old.host.pool.area))
            self.old self.new machine.old machine.new printer.new) }
        ensures stopped { OnErr result
            (HasStopped self.old self.new machine.old machine.new printer.new) }
        ensures file { IsErrOf result LineStop.FileFault → ⊥ }
        ensures sound { IsSound self.new machine.new }
        ensures machine { machine.new ≡ record machine.old { mem = machine.new.mem } }
        ensures size { length machine.new.mem ≡ length machine.old.mem }
    {
        match plan_of(alloc, tree, machine.area()) {
            Ok(plan) => self.admit(alloc, machine, name, plan, printer),
            Err(PlanFault::At { kind, node }) => {
                refusals::plan(printer, kind, node);
                Ok(())
            }
            Err(PlanFault::Overlap(first, second)) => {
                refusals::overlap(printer, first, second);
                Ok(())
            }
            Err(PlanFault::NoMemory) => Err(LineStop::NoMemory),
        }
    }
}
