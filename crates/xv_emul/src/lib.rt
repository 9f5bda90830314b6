//! Loads and stores that a device answers: the access that an instruction makes, and what the value
//! of a load becomes. Which rows these are, and with which address, width and value, is said by the
//! effects of the instruction table (Unprivileged ISA 20191213, section 2.6).
#![tactic(auto)]

ghost use Rattle.std.specs.Prelude.{◌≡◌, ◌+◌, ◌-◌, ◌*◌, ◌^◌, ◌<◌, ◌≤◌, IfSome, IsTrue};
ghost use Rattle.xv_isa.specs.Effects as effects;
ghost use Rattle.xv_isa.specs.Encoding.{InRange};
ghost use Rattle.xv_bus.specs.Access.{Fits};
ghost use Rattle.xv_step.specs.State.{with_register};
ghost use Rattle.xv_emul.specs.Emulation.{access_of, emulated, after_load, is_load, is_bus_load};

#[cfg(test)]
mod tests;

use xv_bus::{Access, Width};
use xv_isa::{Insn, Op, op_of};

/// The access to a device that the instruction makes, where the integer registers are `x`: the
/// width of a load, or the width and the value of a store, cut to its bytes. None where the
/// instruction is no plain load or store; LR, SC and AMOs aren't.
#[tactic(auto, unfolding(crate::specs::Emulation::access_of, xv_isa::specs::Effects::effect_of))]
pub fn emulate(insn: &Insn, x: &[u64; 32]) -> Option<Access>
    requires { InRange insn.now }
    ensures access { result ≡ emulated insn.now x.now }
    ensures load { is_bus_load result ≡ is_load (access_of insn.now x.now) }
    ensures fits { IfSome result Fits }
{
    match op_of(insn) {
        Op::Lb => Some(Access::Load(Width::W1)),
        Op::Lh => Some(Access::Load(Width::W2)),
        Op::Lw => Some(Access::Load(Width::W4)),
        Op::Ld => Some(Access::Load(Width::W8)),
        Op::Lbu => Some(Access::Load(Width::W1)),
        Op::Lhu => Some(Access::Load(Width::W2)),
        Op::Lwu => Some(Access::Load(Width::W4)),
        Op::Sb => Some(Access::Store(Width::W1, register(x, insn.rs2) % (1 << 8))),
        Op::Sh => Some(Access::Store(Width::W2, register(x, insn.rs2) % (1 << 16))),
        Op::Sw => Some(Access::Store(Width::W4, register(x, insn.rs2) % (1 << 32))),
        Op::Sd => Some(Access::Store(Width::W8, register(x, insn.rs2))),
        _ => None,
    }
}

/// Writes the value of a load into its register, extended as the row says; x0 isn't written. Of the
/// value the low bytes count, as many as the load has.
#[tactic(auto, unfolding(crate::specs::Emulation::access_of, xv_isa::specs::Effects::effect_of))]
pub fn write_back(insn: &Insn, x: &mut [u64; 32], value: u64)
    requires range { InRange insn.now }
    requires load { IsTrue (is_load (access_of insn.now x.old)) }
    ensures { x.new ≡ after_load (access_of insn.now x.old) value x.old }
{
    match op_of(insn) {
        Op::Lb => set(x, insn.rd, with_sign(value % (1 << 8), 1 << 7)),
        Op::Lh => set(x, insn.rd, with_sign(value % (1 << 16), 1 << 15)),
        Op::Lw => set(x, insn.rd, with_sign(value % (1 << 32), 1 << 31)),
        Op::Ld => set(x, insn.rd, value),
        Op::Lbu => set(x, insn.rd, value % (1 << 8)),
        Op::Lhu => set(x, insn.rd, value % (1 << 16)),
        Op::Lwu => set(x, insn.rd, value % (1 << 32)),
        _ => {}
    }
}

// The value of a register, of which x0 reads 0.
fn register(x: &[u64; 32], number: u8) -> u64
    requires { number < 32 }
    ensures { result ≡ effects.register x.now number }
{
    if number == 0 { 0 } else { x[number as usize] }
}

// Writes a register, unless it is x0.
fn set(x: &mut [u64; 32], rd: u8, value: u64)
    requires { rd < 32 }
    ensures { x.new ≡ with_register rd value x.old }
{
    if rd != 0 {
        x[rd as usize] = value;
    }
}

// A number of which `sign` is the highest bit, extended with that bit.
fn with_sign(value: u64, sign: u64) -> u64
    requires low { sign < 2 ^ 62 }
    requires small { value < 2 * sign }
    ensures low { value < sign → result ≡ value }
    ensures high { sign ≤ value → result ≡ value + (2 ^ 64 - 2 * sign) }
{
    if value < sign {
        value
    } else {
        value + (u64::MAX - (2 * sign - 1))
    }
}
