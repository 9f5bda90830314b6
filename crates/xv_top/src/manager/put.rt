//! Bytes into a guest's memory.
ghost use Rattle.std.specs.Prelude.{◌≡◌, ℕ, List, [], length, Some, true, false};

use super::Manager;
use crate::refusals;
use xv_base::{GuestKey, GuestName};
use xv_hart::Machine;
use xv_print::Printer;

impl Manager {
    ghost use Rattle.xv_host.specs.Change.{OfGuest};
    ghost use Rattle.xv_top.specs.Contents.{put_into};
    ghost use Rattle.xv_top.specs.Manager.{live_guest, named, world_of, Gives, IsSound};

    /// Puts bytes into the memory of the guest of that name and key, or prints that they don't lie
    /// wholly in it.
    pub(super) fn put(
        &mut self,
        machine: &mut Machine,
        name: &GuestName,
        key: GuestKey,
        gpa: u64,
        bytes: &[u8],
        printer: &mut Printer,
    ) -> bool
        requires empty { printer.old ≡ [] }
        requires sound { IsSound self.old machine.old }
        requires there { self.old.guest ≡ Some (named name.now key) }
        ensures put { result ≡ true → (text : List ℕ) → OfGuest self.old.host.guests key (λ g.
            Gives (put_into (world_of self.old machine.old.mem) name.now gpa bytes.now text
            (live_guest name.now self.old.last g machine.old.mem))
            self.old self.new machine.old machine.new text) }
        ensures empty { result ≡ true → printer.new ≡ [] }
        ensures refused { result ≡ false → (text : List ℕ) → OfGuest self.old.host.guests key
            (λ g. Gives (put_into (world_of self.old machine.old.mem) name.now gpa bytes.now text
            (live_guest name.now self.old.last g machine.old.mem))
            self.old self.new machine.old machine.new printer.new) }
        ensures sound { IsSound self.new machine.new }
        ensures machine { machine.new ≡ record machine.old { mem = machine.new.mem } }
        ensures size { length machine.new.mem ≡ length machine.old.mem }
    {
        let Ok(()) = self.host.store(machine, key, gpa, bytes) else {
            refusals::refused(printer, b"outside");
            return false;
        };
        true
    }
}
