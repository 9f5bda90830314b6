//! The manager: what each line of a script does to the guests, and what it answers.
ghost use Rattle.std.specs.Prelude.{◌≡◌, ℕ, ◌+◌, ◌^◌, ◌<◌, ◌≤◌, List, [], length, IsSome};
ghost use Rattle.std.specs.Prelude.{Some, None, IfSome, IfOk, OnOk, OnErr, IsErrOf, true};
ghost use Rattle.xv_base.specs.Fault.{Rose};
ghost use Rattle.xv_hart.specs.Hart.{taken_by};
ghost use Rattle.xv_hart.specs.Machine.{IsFit};
ghost use Rattle.xv_lone.specs.Ready.{is_reset};
ghost use Rattle.xv_outside.specs.Fetch.{FileMap};

mod admit;
mod audit;
mod clock;
mod create;
mod digest;
mod fetch;
mod flat;
mod kick;
mod list;
mod load;
mod mem;
mod poke;
mod put;
mod regs;
mod run;
mod vserial;

use crate::refusals;
use crate::stop::LineStop;
use std::alloc::Global;
use std::sync::ledger::Ledger;
use xv_base::{GuestKey, GuestName, NoMemory};
use xv_hart::Machine;
use xv_host::Host;
use xv_lone::GuestState;
use xv_mem::Steps;
use xv_outside::Files;
use xv_print::Printer;
use xv_script::{Command, Line};

/// The tick before a script changes it.
const FIRST_TICK: u64 = 100;

/// A guest of the script: its name, and the key under which the host knows it.
#[derive(Clone, Copy)]
pub struct Named {
    pub name: GuestName,
    pub key: GuestKey,
}

/// The host with its guests, the clock and the scheduler's counts.
#[derive(Drop)]
pub struct Manager {
    host: Host,
    guest: Option<Named>,
    // the number of the last turn of each VCPU of the guest, 0 before it has had one
    last: [u32; 8],
    clock: u64,
    tick: u64,
    turns: u32,
}

impl Manager {
    ghost use Rattle.xv_hart.specs.Machine.{area_of};
    ghost use Rattle.xv_host.specs.Change.{OfGuest};
    ghost use Rattle.xv_host.specs.Host.{IsFresh};
    ghost use Rattle.xv_host.specs.Places.{guest_at};
    ghost use Rattle.xv_top.specs.Answer.{Answer, says, where_there, where_reset};
    ghost use Rattle.xv_top.specs.Commands.{answer, is_fetching, is_loadable};
    ghost use Rattle.xv_top.specs.Files.{StandsFor};
    ghost use Rattle.xv_top.specs.Layout.{memory_size};
    ghost use Rattle.xv_top.specs.Manager.{live_guest, live_of, named, world_of, HasGuests};
    ghost use Rattle.xv_top.specs.Manager.{Gives, HasStopped, IsSound, may_stop};
    ghost use Rattle.xv_top.specs.World as worlds;
    ghost use Rattle.xv_script.specs.Command.{IsInRange};

    /// A manager with no guest yet, over a machine of zeros.
    pub fn new(alloc: Global, machine: &Machine) -> Result<Manager, NoMemory>
        requires fresh { IsFresh machine.now }
        ensures world { IfOk result (λ m. (mib : ℕ) → length machine.now.mem ≡ memory_size mib →
            machine.now.area ≡ area_of mib 0 →
            world_of m machine.now.mem ≡ worlds.first_world mib) }
        ensures sound { IfOk result (λ m. IsSound m machine.now) }
    {
        let host = Host::new(alloc, machine)?;
        Ok(Manager {
            host,
            guest: None,
            last: [0; 8],
            clock: 0,
            tick: FIRST_TICK,
            turns: 0,
        })
    }

    /// The key of the live guest of that name.
    fn key_of(&self, name: &GuestName) -> Option<GuestKey>
        ensures guest { (bytes : List ℕ) → worlds.guest_named name.now (world_of self.now bytes)
            ≡ live_of name.now self.now.last result self.now.host.guests bytes }
        ensures named { IfSome result (λ key. self.now.guest ≡ Some (named name.now key)) }
    {
        let guest = self.guest?;
        if guest.name.bytes() == name.bytes() {
            Some(guest.key)
        } else {
            None
        }
    }

    /// The key of the live guest of that name, or the line that refuses a command on it is printed.
    fn there(&self, name: &GuestName, printer: &mut Printer) -> Option<GuestKey>
        requires empty { printer.old ≡ [] }
        requires guests { HasGuests self.now.guest self.now.host.guests }
        ensures named { IfSome result (λ key. self.now.guest ≡ Some (named name.now key)) }
        ensures live { IfSome result (λ key. IsSome (guest_at self.now.host.guests key)) }
        ensures next { IfSome result (λ key. OfGuest self.now.host.guests key (λ g.
            (bytes : List ℕ) (next : worlds.LiveGuest → Answer) →
            where_there (world_of self.now bytes) next
            (worlds.guest_named name.now (world_of self.now bytes))
            ≡ next (live_guest name.now self.now.last g bytes))) }
        ensures empty { IfSome result (λ key. printer.new ≡ []) }
        ensures refused { result ≡ None → (bytes : List ℕ) (next : worlds.LiveGuest → Answer) →
            where_there (world_of self.now bytes) next
            (worlds.guest_named name.now (world_of self.now bytes))
            ≡ says (world_of self.now bytes) printer.new }
    {
        let Some(key) = self.key_of(name) else {
            refusals::refused(printer, b"guest");
            return None;
        };
        Some(key)
    }

    /// The key of the live guest of that name, which is in its reset state, or the line that
    /// refuses a command on it is printed.
    fn at_reset(&self, name: &GuestName, printer: &mut Printer) -> Option<GuestKey>
        requires empty { printer.old ≡ [] }
        requires guests { HasGuests self.now.guest self.now.host.guests }
        ensures named { IfSome result (λ key. self.now.guest ≡ Some (named name.now key)) }
        ensures next { IfSome result (λ key. OfGuest self.now.host.guests key (λ g.
            (bytes : List ℕ) (next : worlds.LiveGuest → Answer) →
            where_reset (world_of self.now bytes) next
            (worlds.guest_named name.now (world_of self.now bytes))
            ≡ next (live_guest name.now self.now.last g bytes))) }
        ensures loadable { IfSome result (λ key. (bytes : List ℕ) →
            is_loadable (worlds.guest_named name.now (world_of self.now bytes)) ≡ true) }
        ensures empty { IfSome result (λ key. printer.new ≡ []) }
        ensures refused { result ≡ None → (bytes : List ℕ) (next : worlds.LiveGuest → Answer) →
            where_reset (world_of self.now bytes) next
            (worlds.guest_named name.now (world_of self.now bytes))
            ≡ says (world_of self.now bytes) printer.new }
    {
        let Some(key) = self.key_of(name) else {
            refusals::refused(printer, b"guest");
            return None;
        };
        if !is_at_reset(self.host.guest(key).state()) {
            refusals::refused(printer, b"state");
            return None;
        }
        Some(key)
    }

    /// One line: what it does, and its answer in the printer. A line that stops does nothing, and
    /// the printer is empty.
    pub fn apply<F: Files, L: Ledger>(
        &mut self,
        alloc: Global,
        machine: &mut Machine,
        files: &mut F,
        line: &Line,
        printer: &mut Printer,
        steps: &mut Steps<L>,
    ) -> Result<(), LineStop>
        requires empty { printer.old ≡ [] }
        requires range { IsInRange line.now.command }
        requires sound { IsSound self.old machine.old }
        requires fit { IsFit machine.old }
        requires few { taken_by machine.old.hart < 2 ^ 61 }

        ensures answer { OnOk result ((told : FileMap) → StandsFor (F.map files.old) told
            (is_fetching (world_of self.old machine.old.mem) line.now.command) →
            Gives (answer told (world_of self.old machine.old.mem) line.now.command)
            self.old self.new machine.old machine.new printer.new) }
        ensures stopped { OnErr result
            (HasStopped self.old self.new machine.old machine.new printer.new) }
        ensures may { (stop : LineStop) → IsErrOf result stop →
            may_stop stop (world_of self.old machine.old.mem) line.now.command ≡ true }
        ensures sound { IsSound self.new machine.new }
        ensures fit { IsFit machine.new }
        ensures size { length machine.new.mem ≡ length machine.old.mem }
        ensures area { machine.new.area ≡ machine.old.area }
        ensures few { taken_by machine.new.hart ≤ taken_by machine.old.hart + 2 ^ 34 }
        ensures map { F.map files.new ≡ F.map files.old }
        ensures quiet { OnOk result (F.faults files.new ≡ F.faults files.old) }
        ensures cause { IsErrOf result LineStop.FileFault
            → Rose (F.faults files.old) (F.faults files.new) }
        ensures later { F.faults files.old ≤ F.faults files.new }
    {
        match &line.command {
            Command::Create(name, file) => self.create(alloc, machine, files, name, file, printer),
            Command::Flat(name, pages) => self.flat(alloc, machine, name, *pages, printer),
            Command::Load(name, gpa, file) => {
                self.load(alloc, machine, files, name, *gpa, file, printer)
            }
            Command::Poke(name, gpa, bytes) => {
                self.poke(machine, name, *gpa, bytes.0.as_slice(), printer);
                Ok(())
            }
            Command::Kick(name) => {
                self.kick(name, printer);
                Ok(())
            }
            Command::Regs(name, vcpu) => {
                self.regs(name, *vcpu, printer);
                Ok(())
            }
            Command::Mem(name, gpa, len) => {
                self.mem(machine, name, *gpa, *len, printer);
                Ok(())
            }
            Command::Digest(name) => {
                self.digest(machine, name, printer);
                Ok(())
            }
            Command::Audit(name) => {
                self.audit(machine, name, printer);
                Ok(())
            }
            Command::List => {
                self.list(printer);
                Ok(())
            }
            Command::Input(name, dev, bytes) => {
                self.input(name, dev, bytes.0.as_slice(), printer);
                Ok(())
            }
            Command::Dump(name, dev) => {
                self.dump(name, dev, printer);
                Ok(())
            }
            Command::Ports => {
                self.ports(printer);
                Ok(())
            }
            Command::Clock(value) => {
                self.set_clock(*value, printer);
                Ok(())
            }
            Command::Tick(value) => {
                self.set_tick(*value, printer);
                Ok(())
            }
            Command::Run(turns) => {
                self.run(machine, *turns, printer, steps);
                Ok(())
            }
            _ => {
                refusals::refused(printer, b"unbuilt");
                Ok(())
            }
        }
    }
}

/// Whether a guest has not been started since its create or its last reset.
fn is_at_reset(state: GuestState) -> bool
    ensures { result ≡ is_reset state }
{
    matches!(state, GuestState::Reset)
}
