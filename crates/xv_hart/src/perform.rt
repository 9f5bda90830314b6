//! One step: the interrupt or the fetch, and what the instruction asks for.
ghost use Rattle.std.specs.Prelude.{◌≡◌, ◌+◌, ◌≤◌, length};
ghost use Rattle.xv_isa.specs.Operands.{decode_of};
ghost use Rattle.xv_csr.specs.Fields.{IsInstructionAddress};
ghost use Rattle.xv_step.specs.Perform as perform;
ghost use Rattle.xv_step.specs.Step as step;
ghost use Rattle.xv_hart.specs.Action.{action_of, Fits};
ghost use Rattle.xv_hcsr.specs.Stage.{root_of};
ghost use Rattle.xv_hart.specs.Memory.{bus_of, HasMemory};
ghost use Rattle.xv_hart.specs.Stage.{SameUnled};
ghost use Rattle.xv_hart.specs.Step.{came, exit_of, state_of, inputs_of, hart_step, IsWellFormed};

use crate::action::{Action, Width};
use crate::effect::effect;
use crate::exit::Exit;
use crate::regs::Regs;
use std::sync::ledger::Ledger;
use xv_isa::{decode, next_pc};
use xv_mem::{HostMem, Steps};
use xv_pte::Kind3;
use xv_trap::chosen;

impl Regs {
    /// One step over host memory. An interrupt that is to be taken comes before the fetch.
    pub(crate) fn step<L: Ledger>(&mut self, mem: &mut HostMem, steps: &mut Steps<L>) -> Exit
        requires formed { IsWellFormed self.old }
        requires memory { HasMemory self.old mem.old }
        ensures step { came result self.new mem.new ≡ hart_step self.old mem.old }
        ensures formed { IsWellFormed self.new }
        ensures size { length mem.new ≡ length mem.old }
        ensures outside { SameUnled mem.old mem.new (root_of self.old.h) }
        ensures counted { steps.new ≤ steps.old + 33 }
    {
        if let Some(cause) = chosen(&self.csrs, self.user, self.lines()) {
            return self.enter(cause, 0);
        }
        let at = match self.reach(mem, Kind3::Fetch, Width::W4, self.pc, steps) {
            Ok(at) => at,
            Err(exit) => return exit,
        };
        let word = mem.read32(at, steps);
        self.execute(mem, word, steps)
    }

    /// Executes a word that was fetched.
    fn execute<L: Ledger>(&mut self, mem: &mut HostMem, word: u32, steps: &mut Steps<L>) -> Exit
        requires formed { IsWellFormed self.old }
        requires memory { HasMemory self.old mem.old }
        ensures came { came result self.new mem.new ≡ exit_of self.old mem.old
            (step.executed (bus_of self.old mem.old) (inputs_of self.old)
            (state_of self.old mem.old) word
            (decode_of word)) }
        ensures formed { IsWellFormed self.new }
        ensures size { length mem.new ≡ length mem.old }
        ensures outside { SameUnled mem.old mem.new (root_of self.old.h) }
        ensures counted { steps.new ≤ steps.old + 17 }
    {
        let Some(insn) = decode(word) else {
            return self.illegal(word);
        };
        let next = next_pc(self.pc, word);
        let action = effect(&insn, &self.x, self.pc, next);
        self.perform(mem, word, next, action, steps)
    }

    /// Does what an instruction asks for.
    fn perform<L: Ledger>(
        &mut self,
        mem: &mut HostMem,
        word: u32,
        next: u64,
        action: Action,
        steps: &mut Steps<L>,
    ) -> Exit
        requires formed { IsWellFormed self.old }
        requires memory { HasMemory self.old mem.old }
        requires next { IsInstructionAddress next }
        requires fits { Fits action }
        ensures came { came result self.new mem.new ≡ exit_of self.old mem.old
            (perform.performed (bus_of self.old mem.old) (inputs_of self.old) word next
            (state_of self.old mem.old) (action_of action)) }
        ensures formed { IsWellFormed self.new }
        ensures size { length mem.new ≡ length mem.old }
        ensures outside { SameUnled mem.old mem.new (root_of self.old.h) }
        ensures counted { steps.new ≤ steps.old + 17 }
    {
        match action {
            Action::Set { rd, value } => {
                self.set_register(rd, value);
                self.go_on(next)
            }
            Action::Jump { target, rd, link } => self.jump(target, rd, link),
            Action::Load {
                width,
                signed,
                va,
                rd,
            } => self.load(mem, width, signed, va, rd, next, steps),
            Action::Store { width, va, value } => self.store(mem, width, va, value, next, steps),
            Action::LoadReserved { width, va, rd } => self.reserve(mem, width, va, rd, next, steps),
            Action::StoreConditional {
                width,
                va,
                value,
                rd,
            } => { self.store_reserved(mem, width, va, value, rd, next, steps) }
            Action::Modify {
                op,
                width,
                va,
                value,
                rd,
            } => { self.modify(mem, op, width, va, value, rd, next, steps) }
            Action::AccessCsr { number, change, rd } => self.access_csr(
                word, number, change, rd, next,
            ),
            Action::FenceTranslations => self.fence_translations(word, next),
            Action::Continue => self.go_on(next),
            Action::EnvironmentCall => self.call(),
            Action::Breakpoint => self.breakpoint(),
            Action::SupervisorReturn => self.supervisor_return(word),
            Action::WaitForInterrupt => self.wait(word),
        }
    }
}
