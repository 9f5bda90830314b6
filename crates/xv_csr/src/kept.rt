//! What each register keeps of a value that is written to it.
ghost use Rattle.std.specs.Prelude.{◌≡◌};
ghost use Rattle.xv_csr.specs.Kept.{kept_sstatus, kept_sie, kept_stvec, kept_scounteren};
ghost use Rattle.xv_csr.specs.Kept.{kept_senvcfg, kept_sepc, kept_satp};

use crate::flags::{Interrupts, Sstatus};
use bitflags::Flags;

/// An instruction's address, and so pc and sepc, is a multiple of so many bytes (4.1.7).
pub const INSTRUCTION_ALIGNMENT: u64 = 4;

// the read-only UXL: 64 bits
pub const UXL: u64 = 2 << 32;

// SUM and MXR of sstatus (4.1.1)
pub const SUM_BIT: u32 = 18;

pub const MXR_BIT: u32 = 19;

pub const TM_BIT: u32 = 1;

const FIOM_BIT: u32 = 0;

/// The mode of stvec in which interrupts have handlers of their own (4.1.2).
pub const VECTORED: u64 = 1;

// the modes of satp (table 4.3)
const BARE: u64 = 0;

const SV39: u64 = 8;

#[tactic(auto, unfolding(crate::proofs::Literals::kept_flags))]
pub fn kept_sstatus(value: u64) -> u64
    ensures { result ≡ kept_sstatus value }
{
    Sstatus::from_bits_truncate(value).bits() + UXL
}

#[tactic(auto, unfolding(crate::proofs::Literals::kept_flags))]
pub fn kept_sie(value: u64) -> u64
    ensures { result ≡ kept_sie value }
{
    Interrupts::from_bits_truncate(value).bits()
}

#[tactic(auto, unfolding(crate::specs::Kept::kept_stvec))]
pub fn kept_stvec(value: u64) -> u64
    ensures { result ≡ kept_stvec value }
{
    let base = value / 4 * 4;
    if value % 4 == VECTORED {
        base + VECTORED
    } else {
        base
    }
}

#[tactic(auto, unfolding(crate::specs::Kept::kept_scounteren))]
pub fn kept_scounteren(value: u64) -> u64
    ensures { result ≡ kept_scounteren value }
{
    value & (1 << TM_BIT)
}

#[tactic(auto, unfolding(crate::specs::Kept::kept_senvcfg))]
pub fn kept_senvcfg(value: u64) -> u64
    ensures { result ≡ kept_senvcfg value }
{
    value & (1 << FIOM_BIT)
}

#[tactic(auto, unfolding(crate::specs::Kept::kept_sepc))]
pub fn kept_sepc(value: u64) -> u64
    ensures { result ≡ kept_sepc value }
{
    value / INSTRUCTION_ALIGNMENT * INSTRUCTION_ALIGNMENT
}

#[tactic(auto, unfolding(crate::specs::Kept::kept_satp))]
pub fn kept_satp(old: u64, value: u64) -> u64
    ensures { result ≡ kept_satp old value }
{
    let mode = value >> 60;
    if mode == BARE || mode == SV39 {
        mode * (1 << 60) + value % (1 << 44)
    } else {
        old
    }
}
