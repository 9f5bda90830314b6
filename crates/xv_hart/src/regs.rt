//! The hart's registers, and the small changes that a step makes of them.
ghost use Rattle.std.specs.Prelude.{◌≡◌, ◌<◌, ◌↔◌, ℕ, List, IsTrue};
ghost use Rattle.xv_step.specs.State.{with_register};
ghost use Rattle.xv_hart.specs.Hart.{zero_regs};
ghost use Rattle.xv_hcsr.specs.Guest.{IsForGuest};
ghost use Rattle.xv_hcsr.specs.Stage.{root_of};
ghost use Rattle.xv_hcsr.specs.Time.{guest_time};
ghost use Rattle.xv_step.specs.Outcome.{Raised};
ghost use Rattle.xv_hart.specs.Step.{came, exit_of, lines_of, IsWellFormed};
ghost use Rattle.xv_hart.specs.Step.{after_trap, exception_trap, with_ssip_of};

use crate::exit::{Exit, HTrap};
use xv_base::has_bit;
use xv_csr::{Lines, SCsrs};
use xv_hcsr::HCsrs;
use xv_trap::{delegated, enter};

// bits of hvip: the lines of the guest's software interrupt, timer and interrupt controller
// (Privileged Architecture 20211203, 8.2.3)
const VSSIP: u64 = 1 << 2;

const VSTIP_BIT: u32 = 6;

const VSEIP_BIT: u32 = 10;

/// A reservation of LR: `width` bytes, 4 or 8, at a host address (Unprivileged ISA 20191213, 8.2).
#[derive(Clone, Copy, Debug, PartialEq, Eq)]
pub struct Held {
    pub host: u64,
    pub width: u8,
}

/// What the hart is between two steps.
#[derive(Clone, Copy, PartialEq, Eq)]
pub struct Regs {
    /// The integer registers. No step reads or writes `x[0]`, which is 0.
    pub x: [u64; 32],
    /// The address of the next instruction, a multiple of 4.
    pub pc: u64,
    /// Mode U where true, mode S where false.
    pub user: bool,
    /// The supervisor CSRs.
    pub csrs: SCsrs,
    /// The hypervisor CSRs of its guest.
    pub h: HCsrs,
    /// The host's clock. The counter `time` reads it with htimedelta added.
    pub time: u64,
    /// The reservation, if there is one.
    pub held: Option<Held>,
}

impl Regs {
    /// Zeros in all registers, mode S, no memory and no reservation.
    pub(crate) fn zero() -> Regs
        ensures { result ≡ zero_regs }
    {
        Regs {
            x: [0; 32],
            pc: 0,
            user: false,
            csrs: SCsrs {
                sstatus: 0,
                sie: 0,
                ssip: false,
                stvec: 0,
                scounteren: 0,
                senvcfg: 0,
                sscratch: 0,
                sepc: 0,
                scause: 0,
                stval: 0,
                satp: 0,
            },
            h: HCsrs {
                hstatus: 0,
                hedeleg: 0,
                hideleg: 0,
                hvip: 0,
                hgatp: 0,
                htimedelta: 0,
                hcounteren: 0,
                htval: 0,
                htinst: 0,
            },
            time: 0,
            held: None,
        }
    }

    /// Whether these are all zeros.
    pub(crate) fn is_zero(&self) -> bool
        ensures { IsTrue result ↔ (self.now ≡ zero_regs) }
    {
        *self == Regs::zero()
    }

    /// Writes a register, unless it is x0.
    pub(crate) fn set_register(&mut self, rd: u8, value: u64)
        requires { rd < 32 }
        ensures { self.new ≡ record self.old { x = with_register rd value self.old.x } }
    {
        if rd != 0 {
            self.x[rd as usize] = value;
        }
    }

    /// Goes on at the next instruction.
    pub(crate) fn go_on(&mut self, next: u64) -> Exit
        ensures done { result ≡ Exit.Done }
        ensures pc { self.new ≡ record self.old { pc = next } }
    {
        self.pc = next;
        Exit::Done
    }

    /// The number of the root table that hgatp names.
    pub(crate) fn root(&self) -> u8
        requires { IsForGuest self.now.h }
        ensures { result ≡ root_of self.now.h }
    {
        (self.h.hgatp % (1 << 44) / 4) as u8
    }

    /// The guest's timer and interrupt controller, as hvip has their lines.
    pub(crate) fn lines(&self) -> Lines
        ensures { result ≡ lines_of self.now.h }
    {
        Lines {
            timer: has_bit(self.h.hvip, VSTIP_BIT),
            external: has_bit(self.h.hvip, VSEIP_BIT),
        }
    }

    /// What the counter `time` reads.
    pub(crate) fn guest_time(&self) -> u64
        ensures { result ≡ guest_time self.now.time self.now.h }
    {
        self.time.wrapping_add(self.h.htimedelta)
    }

    /// Makes VSSIP of hvip what the guest has written to SSIP of sip: the two are one bit
    /// (Privileged Architecture 20211203, 8.2.3).
    pub(crate) fn follow_ssip(&mut self)
        ensures { self.new ≡ with_ssip_of self.old }
    {
        if self.csrs.ssip {
            self.h.hvip |= VSSIP;
        } else {
            self.h.hvip &= !VSSIP;
        }
    }

    /// An exception. It enters the guest where hedeleg says so, and is left to the monitor else.
    pub(crate) fn trap(&mut self, cause: u64, tval: u64) -> Exit
        requires formed { IsWellFormed self.old }
        requires small { cause < 64 }
        ensures came { (bytes : List ℕ) →
            came result self.new bytes ≡ exit_of self.old bytes (Raised cause tval) }
        ensures formed { IsWellFormed self.new }
    {
        if delegated(&self.h, cause) {
            self.enter(cause, tval)
        } else {
            self.exception(cause, tval)
        }
    }

    /// Enters the guest's handler in S, by an exception or an interrupt.
    #[tactic(auto, using(crate::proofs::StepLemmas::entered))]
    pub(crate) fn enter(&mut self, cause: u64, tval: u64) -> Exit
        requires formed { IsWellFormed self.old }
        ensures done { result ≡ Exit.Done }
        ensures regs { self.new ≡ after_trap cause tval self.old }
        ensures formed { IsWellFormed self.new }
    {
        let pc = enter(&mut self.csrs, self.user, cause, tval, self.pc);
        self.pc = pc;
        self.user = false;
        Exit::Done
    }

    // An exception that isn't the guest's to take.
    #[cold]
    fn exception(&self, cause: u64, tval: u64) -> Exit
        requires { cause < 64 }
        ensures { result ≡ Exit.Trap (exception_trap self.now.user cause tval) }
    {
        Exit::Trap(HTrap {
            cause: cause as u8,
            tval,
            htval: 0,
            htinst: 0,
            word: 0,
            user: self.user,
        })
    }
}
