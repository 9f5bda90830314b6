//! What the other rows do that don't only write a register: jumps, accesses to CSRs, calls, returns
//! and waits.
ghost use Rattle.std.specs.Prelude.{◌≡◌, ℕ, ◌<◌, ◌%◌, List, Some};
ghost use Rattle.xv_isa.specs.Effects as effects;
ghost use Rattle.xv_csr.specs.Cause.{breakpoint, illegal_instruction};
ghost use Rattle.xv_csr.specs.Fields.{IsInstructionAddress};
ghost use Rattle.xv_step.specs.Perform as perform;
ghost use Rattle.xv_hart.specs.Action.{change_of};
ghost use Rattle.xv_hart.specs.Memory.{bus_of};
ghost use Rattle.xv_step.specs.Outcome.{Raised};
ghost use Rattle.xv_hart.specs.Step.{came, exit_of, state_of, inputs_of, IsWellFormed};

use crate::action::CsrChange;
use crate::exit::{Exit, HTrap};
use crate::regs::Regs;
use xv_csr::INSTRUCTION_ALIGNMENT;
use xv_csr::cause::{
    BREAKPOINT, ENVIRONMENT_CALL_FROM_U, ENVIRONMENT_CALL_FROM_VS, ILLEGAL_INSTRUCTION,
    INSTRUCTION_ADDRESS_MISALIGNED, VIRTUAL_INSTRUCTION,
};
use xv_trap::leave;

// the word of WFI
const WFI: u32 = 0x1050_0073;

impl CsrChange {
    // The number that a CSR is written with, of its old one, where it is written.
    fn of(self, old: u64) -> Option<u64>
        ensures { result ≡ perform.new_value (change_of self) old }
    {
        match self {
            CsrChange::Written(value) => Some(value),
            CsrChange::BitsSet(value) => Some(old | value),
            CsrChange::BitsCleared(value) => Some(old & !value),
            CsrChange::Unwritten => None,
        }
    }
}

impl Regs {
    /// The word is illegal.
    pub(crate) fn illegal(&mut self, word: u32) -> Exit
        requires formed { IsWellFormed self.old }
        ensures came { (bytes : List ℕ) →
            came result self.new bytes
            ≡ exit_of self.old bytes (Raised illegal_instruction word) }
        ensures formed { IsWellFormed self.new }
    {
        self.trap(ILLEGAL_INSTRUCTION, word as u64)
    }

    /// A jump, which writes its link only where the target is aligned.
    pub(crate) fn jump(&mut self, target: u64, rd: u8, link: u64) -> Exit
        requires formed { IsWellFormed self.old }
        requires rd { rd < 32 }
        ensures came { (bytes : List ℕ) (word next : ℕ) →
            came result self.new bytes ≡ exit_of self.old bytes
            (perform.jumped (bus_of self.old bytes) (inputs_of self.old) word next
            (state_of self.old bytes) target rd link) }
        ensures formed { IsWellFormed self.new }
    {
        if target % INSTRUCTION_ALIGNMENT != 0 {
            return self.trap(INSTRUCTION_ADDRESS_MISALIGNED, target);
        }
        self.set_register(rd, link);
        self.pc = target;
        Exit::Done
    }

    /// A CSR row: the old value goes to rd, and the CSR changes.
    #[tactic(auto, using(crate::proofs::StepLemmas::ssip))]
    pub(crate) fn access_csr(
        &mut self,
        word: u32,
        number: u16,
        change: CsrChange,
        rd: u8,
        next: u64,
    ) -> Exit
        requires formed { IsWellFormed self.old }
        requires next { IsInstructionAddress next }
        requires rd { rd < 32 }
        ensures came { (bytes : List ℕ) →
            came result self.new bytes ≡ exit_of self.old bytes
            (perform.csr (bus_of self.old bytes) (inputs_of self.old) word next
            (state_of self.old bytes) number (change_of change) rd) }
        ensures formed { IsWellFormed self.new }
    {
        let lines = self.lines();
        let time = self.guest_time();
        let Some(old) = self.csrs.read(number, self.user, lines, time) else {
            return self.illegal(word);
        };
        if let Some(value) = change.of(old) {
            if !self.csrs.write(number, self.user, value) {
                return self.illegal(word);
            }
            self.follow_ssip();
        }
        self.set_register(rd, old);
        self.go_on(next)
    }

    /// ECALL: an exception in U; in S it is left to the monitor.
    pub(crate) fn call(&mut self) -> Exit
        requires formed { IsWellFormed self.old }
        ensures came { (bytes : List ℕ) (word next : ℕ) →
            came result self.new bytes ≡ exit_of self.old bytes
            (perform.environment_call (bus_of self.old bytes) (inputs_of self.old) word next
            (state_of self.old bytes)) }
        ensures formed { IsWellFormed self.new }
    {
        if self.user {
            return self.trap(ENVIRONMENT_CALL_FROM_U, 0);
        }
        self.left(ENVIRONMENT_CALL_FROM_VS as u8, 0)
    }

    /// EBREAK: an exception whose stval is the pc.
    pub(crate) fn breakpoint(&mut self) -> Exit
        requires formed { IsWellFormed self.old }
        ensures came { (bytes : List ℕ) →
            came result self.new bytes
            ≡ exit_of self.old bytes (Raised breakpoint self.old.pc) }
        ensures formed { IsWellFormed self.new }
    {
        self.trap(BREAKPOINT, self.pc)
    }

    /// SRET, which is illegal in U.
    pub(crate) fn supervisor_return(&mut self, word: u32) -> Exit
        requires formed { IsWellFormed self.old }
        ensures came { (bytes : List ℕ) (next : ℕ) →
            came result self.new bytes ≡ exit_of self.old bytes
            (perform.performed (bus_of self.old bytes) (inputs_of self.old) word next
            (state_of self.old bytes)
            effects.SupervisorReturn) }
        ensures formed { IsWellFormed self.new }
    {
        if self.user {
            return self.illegal(word);
        }
        let (pc, user) = leave(&mut self.csrs);
        self.pc = pc;
        self.user = user;
        Exit::Done
    }

    /// WFI, which is illegal in U, and left to the monitor in S.
    pub(crate) fn wait(&mut self, word: u32) -> Exit
        requires formed { IsWellFormed self.old }
        ensures came { (bytes : List ℕ) (next : ℕ) →
            came result self.new bytes ≡ exit_of self.old bytes
            (perform.performed (bus_of self.old bytes) (inputs_of self.old) word next
            (state_of self.old bytes)
            effects.WaitForInterrupt) }
        ensures formed { IsWellFormed self.new }
    {
        if self.user {
            return self.illegal(word);
        }
        self.left(VIRTUAL_INSTRUCTION as u8, WFI)
    }

    /// SFENCE.VMA, which is illegal in U. There is no cache to fence.
    pub(crate) fn fence_translations(&mut self, word: u32, next: u64) -> Exit
        requires formed { IsWellFormed self.old }
        requires next { IsInstructionAddress next }
        ensures came { (bytes : List ℕ) →
            came result self.new bytes ≡ exit_of self.old bytes
            (perform.performed (bus_of self.old bytes) (inputs_of self.old) word next
            (state_of self.old bytes)
            effects.FenceTranslations) }
        ensures formed { IsWellFormed self.new }
    {
        if self.user {
            return self.illegal(word);
        }
        self.go_on(next)
    }

    // An instruction that is left to the monitor.
    fn left(&self, cause: u8, word: u32) -> Exit
        ensures { result ≡ Exit.Trap (record {
          cause = cause;
          tval = word;
          htval = 0;
          htinst = 0;
          word = word;
          user = self.now.user;
        }) }
    {
        Exit::Trap(HTrap {
            cause,
            tval: word as u64,
            htval: 0,
            htinst: 0,
            word,
            user: self.user,
        })
    }
}
