//! The supervisor's control and status registers of one VCPU (Privileged Architecture 20211203,
//! section 4.1), the counter `time` (Unprivileged ISA 20191213, chapter 10), and the causes of
//! traps. The definitions of trap entry, trap return and the choice of an interrupt stand here too.
//!
//! What of the standard is this project's profile: the ASID of satp reads 0 and its MODE is Bare or
//! Sv39; the A and D bits of table entries are never set by the hart; `cycle` and `instret` are
//! refused, so `scounteren` keeps TM alone; `senvcfg` keeps FIOM alone.
#![tactic(auto)]

pub mod cause;
mod flags;
mod kept;
#[cfg(test)]
mod tests;

ghost use Rattle.std.specs.Prelude.{◌≡◌, false, is_some, unwrap_or};
ghost use Rattle.xv_base.specs.Bits.{has_bit};
ghost use Rattle.xv_csr.specs.Fields.{sum_bit, mxr_bit};
ghost use Rattle.xv_csr.specs.Kept.{IsKept};
ghost use Rattle.xv_csr.specs.Pending.{sip_of, pending};
ghost use Rattle.xv_csr.specs.Reset.{reset_csrs};
ghost use Rattle.xv_csr.specs.Table.{csr_read, csr_written, may_read, register_of, register_read};
ghost use Rattle.xv_csr.specs.Table.{register_written};

use cause::{EXTERNAL_INTERRUPT, SOFTWARE_INTERRUPT, TIMER_INTERRUPT};
pub use flags::{Interrupts, Sstatus};
pub use kept::{INSTRUCTION_ALIGNMENT, VECTORED};
use kept::{
    MXR_BIT, SUM_BIT, TM_BIT, UXL, kept_satp, kept_scounteren, kept_senvcfg, kept_sepc, kept_sie,
    kept_sstatus, kept_stvec,
};
use xv_base::has_bit;

/// The supervisor CSRs of a VCPU, each as a read gives it, but for `sip`: of that, `ssip` is the
/// software interrupt, and the two lines come from outside.
///
/// `sstatus` has the read-only UXL = 2 beside the bits that a write keeps.
#[derive(Clone, Copy, Debug, PartialEq, Eq)]
pub struct SCsrs {
    pub sstatus: u64,
    pub sie: u64,
    pub ssip: bool,
    pub stvec: u64,
    pub scounteren: u64,
    pub senvcfg: u64,
    pub sscratch: u64,
    pub sepc: u64,
    pub scause: u64,
    pub stval: u64,
    pub satp: u64,
}

/// The levels of the two interrupt lines that a VCPU has from outside: of its timer and of the
/// interrupt controller.
#[derive(Clone, Copy, Debug, PartialEq, Eq)]
pub struct Lines {
    pub timer: bool,
    pub external: bool,
}

/// The registers that have a number.
#[derive(Clone, Copy)]
enum Register {
    Sstatus,
    Sie,
    Stvec,
    Scounteren,
    Senvcfg,
    Sscratch,
    Sepc,
    Scause,
    Stval,
    Sip,
    Satp,
    Time,
}

#[tactic(auto, unfolding(crate::specs::Table::register_of))]
fn register_of(number: u16) -> Option<Register>
    ensures { result ≡ register_of number }
{
    match number {
        0x100 => Some(Register::Sstatus),
        0x104 => Some(Register::Sie),
        0x105 => Some(Register::Stvec),
        0x106 => Some(Register::Scounteren),
        0x10A => Some(Register::Senvcfg),
        0x140 => Some(Register::Sscratch),
        0x141 => Some(Register::Sepc),
        0x142 => Some(Register::Scause),
        0x143 => Some(Register::Stval),
        0x144 => Some(Register::Sip),
        0x180 => Some(Register::Satp),
        0xC01 => Some(Register::Time),
        _ => None,
    }
}

impl SCsrs {
    /// The registers after a reset: 0 in each, but for the read-only UXL = 2 of sstatus.
    #[tactic(auto, unfolding(crate::proofs::Literals::kept_at_reset))]
    pub fn reset() -> SCsrs
        ensures values { result ≡ reset_csrs }
        ensures keeps { IsKept result }
    {
        SCsrs {
            sstatus: UXL,
            sie: 0,
            ssip: false,
            stvec: 0,
            scounteren: 0,
            senvcfg: 0,
            sscratch: 0,
            sepc: 0,
            scause: 0,
            stval: 0,
            satp: 0,
        }
    }

    /// What a read of the CSR with the number gives, in U or in S, at the guest time `time`. None
    /// where the number is that of no register, or the mode may not read it.
    #[tactic(auto, unfolding(crate::specs::Table::csr_read))]
    pub fn read(&self, number: u16, user: bool, lines: Lines, time: u64) -> Option<u64>
        ensures { result ≡ csr_read self.now number user lines time }
    {
        let register = register_of(number)?;
        if self.may_read(user, register) {
            Some(self.value_of(lines, time, register))
        } else {
            None
        }
    }

    /// Writes the CSR with the number. False where the number is that of no register, or the mode
    /// may not write it; nothing changes then.
    #[tactic(auto, unfolding(crate::specs::Table::csr_written))]
    pub fn write(&mut self, number: u16, user: bool, value: u64) -> bool
        ensures allowed { result ≡ is_some (csr_written self.old number user value) }
        ensures after { self.new ≡ unwrap_or (csr_written self.old number user value) self.old }
        ensures refused { result ≡ false → self.new ≡ self.old }
        ensures keeps { IsKept self.old → IsKept self.new }
    {
        if user {
            return false;
        }
        match register_of(number) {
            Some(register) => self.put(register, value),
            None => false,
        }
    }

    fn may_read(&self, user: bool, register: Register) -> bool
        ensures { result ≡ may_read self.now user register }
    {
        if !user {
            return true;
        }
        match register {
            Register::Time => has_bit(self.scounteren, TM_BIT),
            _ => false,
        }
    }

    fn value_of(&self, lines: Lines, time: u64, register: Register) -> u64
        ensures { result ≡ register_read self.now lines time register }
    {
        match register {
            Register::Sstatus => self.sstatus,
            Register::Sie => self.sie,
            Register::Stvec => self.stvec,
            Register::Scounteren => self.scounteren,
            Register::Senvcfg => self.senvcfg,
            Register::Sscratch => self.sscratch,
            Register::Sepc => self.sepc,
            Register::Scause => self.scause,
            Register::Stval => self.stval,
            Register::Sip => self.sip(lines),
            Register::Satp => self.satp,
            Register::Time => time,
        }
    }

    fn put(&mut self, register: Register, value: u64) -> bool
        ensures allowed { result ≡ is_some (register_written self.old value register) }
        ensures after { self.new ≡ unwrap_or (register_written self.old value register) self.old }
    {
        match register {
            Register::Sstatus => self.sstatus = kept_sstatus(value),
            Register::Sie => self.sie = kept_sie(value),
            Register::Stvec => self.stvec = kept_stvec(value),
            Register::Scounteren => self.scounteren = kept_scounteren(value),
            Register::Senvcfg => self.senvcfg = kept_senvcfg(value),
            Register::Sscratch => self.sscratch = value,
            Register::Sepc => self.sepc = kept_sepc(value),
            Register::Scause => self.scause = value,
            Register::Stval => self.stval = value,
            Register::Sip => self.ssip = has_bit(value, SOFTWARE_INTERRUPT as u32),
            Register::Satp => self.satp = kept_satp(self.satp, value),
            Register::Time => return false,
        }
        true
    }

    // the software interrupt and the two lines, each at its bit
    #[tactic(auto, unfolding(crate::specs::Pending::sip_of))]
    fn sip(&self, lines: Lines) -> u64
        ensures { result ≡ sip_of self.now lines }
    {
        let software = if self.ssip {
            1 << SOFTWARE_INTERRUPT
        } else {
            0
        };
        let timer = if lines.timer { 1 << TIMER_INTERRUPT } else { 0 };
        let external = if lines.external {
            1 << EXTERNAL_INTERRUPT
        } else {
            0
        };
        software + timer + external
    }

    /// SUM of sstatus: S may use the pages of U.
    pub fn sum(&self) -> bool
        ensures { result ≡ has_bit sum_bit self.now.sstatus }
    {
        has_bit(self.sstatus, SUM_BIT)
    }

    /// MXR of sstatus: what is executable may be loaded.
    pub fn mxr(&self) -> bool
        ensures { result ≡ has_bit mxr_bit self.now.sstatus }
    {
        has_bit(self.sstatus, MXR_BIT)
    }

    /// sip & sie: the interrupts that are pending and enabled, each at its bit.
    #[tactic(auto, unfolding(crate::specs::Pending::pending))]
    pub fn pending(&self, lines: Lines) -> u64
        ensures { result ≡ pending self.now lines }
    {
        self.sip(lines) & self.sie
    }
}
