//! `guest load`
ghost use Rattle.std.specs.Prelude.{◌≡◌, ◌≤◌, [], length, Some, true, OnOk, OnErr, IsErrOf};
ghost use Rattle.xv_base.specs.Fault.{Rose};
ghost use Rattle.xv_outside.specs.Fetch.{FileMap};

use super::Manager;
use super::fetch::fetch;
use crate::report;
use crate::stop::LineStop;
use std::alloc::Global;
use xv_base::{FileName, GuestKey, GuestName};
use xv_hart::Machine;
use xv_outside::Files;
use xv_print::Printer;

/// The most bytes of an image.
const MOST_IMAGE: usize = 67_108_864;

impl Manager {
    ghost use Rattle.xv_host.specs.Change.{OfGuest};
    ghost use Rattle.xv_script.specs.declared.command.Command.TheVariants as command;
    ghost use Rattle.xv_top.specs.Commands.{is_fetching};
    ghost use Rattle.xv_top.specs.Contents.{load_bytes, load_guest};
    ghost use Rattle.xv_top.specs.Files.{StandsFor};
    ghost use Rattle.xv_top.specs.Manager.{live_guest, named, world_of, Gives, HasStopped};
    ghost use Rattle.xv_top.specs.Manager.{IsSound};
    ghost use Rattle.xv_top.specs.World.{guest_named};

    /// `guest load NAME GPA FILE`
    pub(super) fn load<F: Files>(
        &mut self,
        alloc: Global,
        machine: &mut Machine,
        files: &mut F,
        name: &GuestName,
        gpa: u64,
        file: &FileName,
        printer: &mut Printer,
    ) -> Result<(), LineStop>
        requires empty { printer.old ≡ [] }
        requires sound { IsSound self.old machine.old }
        ensures answer { OnOk result ((told : FileMap) → StandsFor (F.map files.old) told
            (is_fetching (world_of self.old machine.old.mem)
            (command.Load name.now gpa file.now)) →
            let w = world_of self.old machine.old.mem in
            Gives (load_guest told w name.now gpa file.now (guest_named name.now w))
            self.old self.new machine.old machine.new printer.new) }
        ensures stopped { OnErr result
            (HasStopped self.old self.new machine.old machine.new printer.new) }
        ensures fetching { OnErr result (is_fetching (world_of self.old machine.old.mem)
            (command.Load name.now gpa file.now) ≡ true) }
        ensures sound { IsSound self.new machine.new }
        ensures machine { machine.new ≡ record machine.old { mem = machine.new.mem } }
        ensures size { length machine.new.mem ≡ length machine.old.mem }
        ensures map { F.map files.new ≡ F.map files.old }
        ensures quiet { OnOk result (F.faults files.new ≡ F.faults files.old) }
        ensures cause { IsErrOf result LineStop.FileFault
            → Rose (F.faults files.old) (F.faults files.new) }
        ensures later { F.faults files.old ≤ F.faults files.new }
    {
        let Some(key) = self.at_reset(name, printer) else {
            return Ok(());
        };
        match fetch(alloc, files, file, MOST_IMAGE, printer) {
            Ok(Some(bytes)) => {
                self.load_bytes(machine, name, key, gpa, &bytes, printer);
                Ok(())
            }
            Ok(None) => Ok(()),
            Err(stop) => Err(stop),
        }
    }

    /// Puts the bytes of a file into the memory of the guest of that name and key.
    fn load_bytes(
        &mut self,
        machine: &mut Machine,
        name: &GuestName,
        key: GuestKey,
        gpa: u64,
        image: &[u8],
        printer: &mut Printer,
    )
        requires empty { printer.old ≡ [] }
        requires sound { IsSound self.old machine.old }
        requires there { self.old.guest ≡ Some (named name.now key) }
        ensures answer { OfGuest self.old.host.guests key (λ g.
            Gives (load_bytes (world_of self.old machine.old.mem) name.now gpa
            (live_guest name.now self.old.last g machine.old.mem) image.now)
            self.old self.new machine.old machine.new printer.new) }
        ensures sound { IsSound self.new machine.new }
        ensures machine { machine.new ≡ record machine.old { mem = machine.new.mem } }
        ensures size { length machine.new.mem ≡ length machine.old.mem }
    {
        if self.put(machine, name, key, gpa, image, printer) {
            report::loaded(printer, name.bytes(), image.len() as u64);
        }
    }
}
