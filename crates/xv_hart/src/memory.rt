//! What the rows that access memory do: loads, stores and atomics (Unprivileged ISA 20191213, 2.6,
//! 5.3 and chapter 8).
ghost use Rattle.std.specs.Prelude.{◌≡◌, ℕ, ◌+◌, ◌*◌, ◌^◌, ◌<◌, ◌≤◌, [], length};
ghost use Rattle.xv_isa.specs.Effects as effects;
ghost use Rattle.xv_csr.specs.Fields.{IsInstructionAddress};
ghost use Rattle.xv_step.specs.Perform as perform;
ghost use Rattle.xv_hart.specs.Action.{bytes_of};
ghost use Rattle.xv_hcsr.specs.Stage.{root_of};
ghost use Rattle.xv_hart.specs.Memory.{bus_of, HasMemory};
ghost use Rattle.xv_hart.specs.Stage.{SameUnled};
ghost use Rattle.xv_hart.specs.Step.{came, exit_of, state_of, inputs_of, held_of, IsWellFormed};

use crate::access::{extended, low_bytes, read, write};
use crate::action::Width;
use crate::exit::Exit;
use crate::regs::{Held, Regs};
use std::sync::ledger::Ledger;
use xv_alu::result;
use xv_isa::Op;
use xv_mem::{HostMem, Steps};
use xv_pte::Kind3;

impl Regs {
    /// A load: the number goes to rd, and the hart goes on at `next`.
    pub(crate) fn load<L: Ledger>(
        &mut self,
        mem: &HostMem,
        width: Width,
        signed: bool,
        va: u64,
        rd: u8,
        next: u64,
        steps: &mut Steps<L>,
    ) -> Exit
        requires formed { IsWellFormed self.old }
        requires memory { HasMemory self.old mem.now }
        requires next { IsInstructionAddress next }
        requires rd { rd < 32 }
        ensures came { (word : ℕ) →
            came result self.new mem.now ≡ exit_of self.old mem.now
            (perform.plain (bus_of self.old mem.now) (inputs_of self.old) word next
            (state_of self.old mem.now)
            (effects.Load (bytes_of width) signed va rd)) }
        ensures formed { IsWellFormed self.new }
        ensures counted { steps.new ≤ steps.old + 16 }
    {
        let at = match self.access(mem, Kind3::Load, width, va, steps) {
            Ok(at) => at,
            Err(exit) => return exit,
        };
        let number = read(mem, width, at, steps);
        self.set_register(rd, extended(signed, width, number));
        self.go_on(next)
    }

    /// A store of the low bytes of a register.
    pub(crate) fn store<L: Ledger>(
        &mut self,
        mem: &mut HostMem,
        width: Width,
        va: u64,
        value: u64,
        next: u64,
        steps: &mut Steps<L>,
    ) -> Exit
        requires formed { IsWellFormed self.old }
        requires memory { HasMemory self.old mem.old }
        requires next { IsInstructionAddress next }
        requires small { value < 2 ^ (8 * bytes_of width) }
        ensures came { (word : ℕ) →
            came result self.new mem.new ≡ exit_of self.old mem.old
            (perform.plain (bus_of self.old mem.old) (inputs_of self.old) word next
            (state_of self.old mem.old)
            (effects.Store (bytes_of width) va value)) }
        ensures formed { IsWellFormed self.new }
        ensures size { length mem.new ≡ length mem.old }
        ensures outside { SameUnled mem.old mem.new (root_of self.old.h) }
        ensures counted { steps.new ≤ steps.old + 16 }
    {
        let at = match self.access(mem, Kind3::Store, width, va, steps) {
            Ok(at) => at,
            Err(exit) => return exit,
        };
        write(mem, width, at, value, steps);
        self.go_on(next)
    }

    /// LR: a load, with its sign, of bytes that are reserved from then on.
    pub(crate) fn reserve<L: Ledger>(
        &mut self,
        mem: &HostMem,
        width: Width,
        va: u64,
        rd: u8,
        next: u64,
        steps: &mut Steps<L>,
    ) -> Exit
        requires formed { IsWellFormed self.old }
        requires memory { HasMemory self.old mem.now }
        requires next { IsInstructionAddress next }
        requires rd { rd < 32 }
        ensures came { (word : ℕ) →
            came result self.new mem.now ≡ exit_of self.old mem.now
            (perform.performed (bus_of self.old mem.now) (inputs_of self.old) word next
            (state_of self.old mem.now)
            (effects.LoadReserved (bytes_of width) va rd)) }
        ensures formed { IsWellFormed self.new }
        ensures counted { steps.new ≤ steps.old + 16 }
    {
        let at = match self.access(mem, Kind3::Load, width, va, steps) {
            Ok(at) => at,
            Err(exit) => return exit,
        };
        let number = read(mem, width, at, steps);
        self.held = Some(Held {
            host: at,
            width: width.bytes(),
        });
        self.set_register(rd, extended(true, width, number));
        self.go_on(next)
    }

    /// SC: a store where just these bytes are reserved, after which rd is 0; else rd is 1. It gives
    /// the reservation up in both cases.
    pub(crate) fn store_reserved<L: Ledger>(
        &mut self,
        mem: &mut HostMem,
        width: Width,
        va: u64,
        value: u64,
        rd: u8,
        next: u64,
        steps: &mut Steps<L>,
    ) -> Exit
        requires formed { IsWellFormed self.old }
        requires memory { HasMemory self.old mem.old }
        requires next { IsInstructionAddress next }
        requires rd { rd < 32 }
        requires small { value < 2 ^ (8 * bytes_of width) }
        ensures came { (word : ℕ) →
            came result self.new mem.new ≡ exit_of self.old mem.old
            (perform.performed (bus_of self.old mem.old) (inputs_of self.old) word next
            (state_of self.old mem.old)
            (effects.StoreConditional (bytes_of width) va value rd)) }
        ensures formed { IsWellFormed self.new }
        ensures size { length mem.new ≡ length mem.old }
        ensures outside { SameUnled mem.old mem.new (root_of self.old.h) }
        ensures counted { steps.new ≤ steps.old + 16 }
    {
        let at = match self.access(mem, Kind3::Store, width, va, steps) {
            Ok(at) => at,
            Err(exit) => return exit,
        };
        let reserved = self.is_reserved(width, at);
        self.held = None;
        if reserved {
            write(mem, width, at, value, steps);
            self.set_register(rd, 0);
        } else {
            self.set_register(rd, 1);
        }
        self.go_on(next)
    }

    // Whether the reservation is of these bytes.
    fn is_reserved(&self, width: Width, at: u64) -> bool
        ensures { result ≡ perform.is_reserved (bus_of self.now []) (bytes_of width) at
            (held_of self.now.held) }
    {
        match self.held {
            None => false,
            Some(held) => held.host == at && held.width == width.bytes(),
        }
    }

    /// An AMO: the old number, with its sign, goes to rd, and the low bytes of the operation's
    /// result on it and the value are stored.
    pub(crate) fn modify<L: Ledger>(
        &mut self,
        mem: &mut HostMem,
        op: Op,
        width: Width,
        va: u64,
        value: u64,
        rd: u8,
        next: u64,
        steps: &mut Steps<L>,
    ) -> Exit
        requires formed { IsWellFormed self.old }
        requires memory { HasMemory self.old mem.old }
        requires next { IsInstructionAddress next }
        requires rd { rd < 32 }
        ensures came { (word : ℕ) →
            came result self.new mem.new ≡ exit_of self.old mem.old
            (perform.performed (bus_of self.old mem.old) (inputs_of self.old) word next
            (state_of self.old mem.old)
            (effects.Modify op (bytes_of width) va value rd)) }
        ensures formed { IsWellFormed self.new }
        ensures size { length mem.new ≡ length mem.old }
        ensures outside { SameUnled mem.old mem.new (root_of self.old.h) }
        ensures counted { steps.new ≤ steps.old + 17 }
    {
        let at = match self.access(mem, Kind3::Store, width, va, steps) {
            Ok(at) => at,
            Err(exit) => return exit,
        };
        let number = read(mem, width, at, steps);
        let old = extended(true, width, number);
        write(
            mem,
            width,
            at,
            low_bytes(width, result(op, old, value)),
            steps,
        );
        self.set_register(rd, old);
        self.go_on(next)
    }
}
