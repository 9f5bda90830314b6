//! Traps into S of one VCPU, its return from them, and which interrupt is taken (Privileged
//! Architecture 20211203, sections 4.1.1 to 4.1.3). Which traps enter a guest (section 8.2.2).
#![tactic(auto)]

ghost use Rattle.std.specs.Prelude.{◌≡◌};
ghost use Rattle.xv_base.specs.Bits.{has_bit};
ghost use Rattle.xv_csr.specs.Fields.{sie_bit, spp_bit, IsInstructionAddress};
ghost use Rattle.xv_csr.specs.Kept.{IsKept};
ghost use Rattle.xv_csr.specs.Pending.{chosen_interrupt, first_of};
ghost use Rattle.xv_csr.specs.Trap.{trap_status, trap_csrs, handler, return_status, return_csrs};
ghost use Rattle.xv_csr.specs.Trap.{returns_to_user};

mod delegation;
#[cfg(test)]
mod tests;

use bitflags::Flags;
pub use delegation::delegated;
use xv_csr::cause::{EXTERNAL_INTERRUPT, INTERRUPT, SOFTWARE_INTERRUPT, TIMER_INTERRUPT};
use xv_csr::{Interrupts, Lines, SCsrs, Sstatus, VECTORED};

/// Takes a trap at `pc`, from U or from S, with its cause and the value for stval, and answers the
/// address of the handler. An interrupt's cause is 2^63 and its number.
#[tactic(auto, unfolding(xv_csr::specs::Trap::trap_csrs))]
pub fn enter(csrs: &mut SCsrs, user: bool, cause: u64, tval: u64, pc: u64) -> u64
    ensures registers { csrs.new ≡ trap_csrs csrs.old user cause tval pc }
    ensures address { result ≡ handler csrs.old cause }
    ensures keeps { IsKept csrs.old → IsInstructionAddress pc → IsKept csrs.new }
{
    let address = handler(csrs, cause);
    csrs.sstatus = trap_status(user, csrs.sstatus);
    csrs.sepc = pc;
    csrs.scause = cause;
    csrs.stval = tval;
    address
}

/// Returns from a trap, as SRET does, and answers the pc and whether the mode is U now.
#[tactic(auto, unfolding(xv_csr::specs::Trap::return_csrs))]
pub fn leave(csrs: &mut SCsrs) -> (u64, bool)
    ensures registers { csrs.new ≡ return_csrs csrs.old }
    ensures pc { result.0 ≡ csrs.old.sepc }
    ensures mode { result.1 ≡ returns_to_user csrs.old }
    ensures keeps { IsKept csrs.old → IsKept csrs.new }
{
    let user = was_user(csrs);
    csrs.sstatus = return_status(csrs.sstatus);
    (csrs.sepc, user)
}

/// The cause of the interrupt that is to be taken, 2^63 and its number, or None where none is:
/// none is pending and enabled, or the mode is S and SIE is 0.
#[tactic(auto, unfolding(xv_csr::specs::Pending::chosen_interrupt))]
pub fn chosen(csrs: &SCsrs, user: bool, lines: Lines) -> Option<u64>
    ensures { result ≡ chosen_interrupt csrs.now user lines }
{
    if user || are_enabled(csrs.sstatus) {
        first_of(csrs.pending(lines))
    } else {
        None
    }
}

#[tactic(auto, using(crate::proofs::BitLemmas::contained))]
fn trap_status(user: bool, status: u64) -> u64
    ensures { result ≡ trap_status user status }
{
    let mut status = Sstatus::from_bits_retain(status);
    let enabled = status.contains(Sstatus::SIE);
    status.set(Sstatus::SIE, false);
    status.set(Sstatus::SPIE, enabled);
    status.set(Sstatus::SPP, !user);
    status.bits()
}

#[tactic(auto, unfolding(xv_csr::specs::Trap::handler))]
fn handler(csrs: &SCsrs, cause: u64) -> u64
    ensures { result ≡ handler csrs.now cause }
{
    let base = csrs.stvec / 4 * 4;
    if cause >= INTERRUPT && csrs.stvec % 4 == VECTORED {
        base.wrapping_add((cause % INTERRUPT).wrapping_mul(4))
    } else {
        base
    }
}

#[tactic(auto, using(crate::proofs::BitLemmas::contained))]
fn return_status(status: u64) -> u64
    ensures { result ≡ return_status status }
{
    let mut status = Sstatus::from_bits_retain(status);
    let enabled = status.contains(Sstatus::SPIE);
    status.set(Sstatus::SIE, enabled);
    status.set(Sstatus::SPIE, true);
    status.set(Sstatus::SPP, false);
    status.bits()
}

#[tactic(auto, unfolding(xv_csr::specs::Trap::returns_to_user))]
fn was_user(csrs: &SCsrs) -> bool
    ensures { result ≡ returns_to_user csrs.now }
{
    !was_supervisor(csrs.sstatus)
}

#[tactic(auto, using(crate::proofs::BitLemmas::contained))]
fn was_supervisor(status: u64) -> bool
    ensures { result ≡ has_bit spp_bit status }
{
    Sstatus::from_bits_retain(status).contains(Sstatus::SPP)
}

#[tactic(auto, using(crate::proofs::BitLemmas::contained))]
fn are_enabled(status: u64) -> bool
    ensures { result ≡ has_bit sie_bit status }
{
    Sstatus::from_bits_retain(status).contains(Sstatus::SIE)
}

#[tactic(auto, using(crate::proofs::BitLemmas::contained))]
fn first_of(pending: u64) -> Option<u64>
    ensures { result ≡ first_of pending }
{
    let pending = Interrupts::from_bits_retain(pending);
    if pending.contains(Interrupts::EXTERNAL) {
        Some(INTERRUPT + EXTERNAL_INTERRUPT)
    } else if pending.contains(Interrupts::SOFTWARE) {
        Some(INTERRUPT + SOFTWARE_INTERRUPT)
    } else if pending.contains(Interrupts::TIMER) {
        Some(INTERRUPT + TIMER_INTERRUPT)
    } else {
        None
    }
}
