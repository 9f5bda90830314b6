//! The effect of each row: what the instruction asks of the hart.
ghost use Rattle.std.specs.Prelude.{◌≡◌, ◌<◌, ◌+◌, ◌%◌, ◌^◌};
ghost use Rattle.xv_isa.specs.Effects as effects;
ghost use Rattle.xv_isa.specs.Encoding.{InRange};
ghost use Rattle.xv_isa.specs.Results.{residue};
ghost use Rattle.xv_hart.specs.Action.{action_of, bytes_of, change_of, Fits};

use crate::access::low_bytes;
use crate::action::{Action, CsrChange, Width};
use xv_alu::result;
use xv_isa::{Insn, Op, op_of};

/// What the instruction at `pc` asks for, where the integer registers are `x`, and the instruction
/// behind it stands at `next`.
#[tactic(auto, using(crate::proofs::Fields::fit), unfolding(xv_isa::specs::Effects::effect_of))]
pub(crate) fn effect(insn: &Insn, x: &[u64; 32], pc: u64, next: u64) -> Action
    requires { InRange insn.now }
    ensures action { action_of result ≡ effects.effect_of insn.now x.now pc next }
    ensures fits { Fits result }
{
    let a = register(x, insn.rs1);
    let b = register(x, insn.rs2);
    let immediate = insn.imm.cast_unsigned();
    let rd = insn.rd;
    let op = op_of(insn);
    match op {
        Op::Lui => set(rd, result(Op::Lui, 0, immediate)),
        Op::Auipc => set(rd, result(Op::Auipc, pc, immediate)),
        Op::Jal => jump(pc.wrapping_add(immediate), rd, next),
        Op::Jalr => jump(a.wrapping_add(immediate) / 2 * 2, rd, next),
        Op::Beq => branch(a == b, insn, pc, next),
        Op::Bne => branch(a != b, insn, pc, next),
        Op::Blt => branch(is_less(a, b), insn, pc, next),
        Op::Bge => branch(!is_less(a, b), insn, pc, next),
        Op::Bltu => branch(a < b, insn, pc, next),
        Op::Bgeu => branch(!(a < b), insn, pc, next),
        Op::Lb => load(Width::W1, true, insn, a),
        Op::Lh => load(Width::W2, true, insn, a),
        Op::Lw => load(Width::W4, true, insn, a),
        Op::Ld => load(Width::W8, true, insn, a),
        Op::Lbu => load(Width::W1, false, insn, a),
        Op::Lhu => load(Width::W2, false, insn, a),
        Op::Lwu => load(Width::W4, false, insn, a),
        Op::Sb => store(Width::W1, insn, a, b),
        Op::Sh => store(Width::W2, insn, a, b),
        Op::Sw => store(Width::W4, insn, a, b),
        Op::Sd => store(Width::W8, insn, a, b),
        Op::Addi | Op::Slti | Op::Sltiu | Op::Xori | Op::Ori | Op::Andi => {
            set(rd, result(op, a, immediate))
        }
        Op::Slli | Op::Srli | Op::Srai => set(rd, result(op, a, immediate)),
        Op::Addiw | Op::Slliw | Op::Srliw | Op::Sraiw => set(rd, result(op, a, immediate)),
        Op::Add | Op::Sll | Op::Slt | Op::Sltu | Op::Xor | Op::Srl | Op::Or | Op::And => {
            set(rd, result(op, a, b))
        }
        Op::Sub | Op::Sra => set(rd, result(op, a, b)),
        Op::Mul | Op::Mulh | Op::Mulhsu | Op::Mulhu => set(rd, result(op, a, b)),
        Op::Div | Op::Divu | Op::Rem | Op::Remu => set(rd, result(op, a, b)),
        Op::Addw | Op::Sllw | Op::Srlw | Op::Subw | Op::Sraw => set(rd, result(op, a, b)),
        Op::Mulw | Op::Divw | Op::Divuw | Op::Remw | Op::Remuw => set(rd, result(op, a, b)),
        Op::Fence | Op::FenceI => Action::Continue,
        Op::Ecall => Action::EnvironmentCall,
        Op::Ebreak => Action::Breakpoint,
        Op::Sret => Action::SupervisorReturn,
        Op::Wfi => Action::WaitForInterrupt,
        Op::SfenceVma => Action::FenceTranslations,
        Op::Csrrw => csr(CsrChange::Written(a), insn),
        Op::Csrrs => csr(unless_zero(insn.rs1, CsrChange::BitsSet(a)), insn),
        Op::Csrrc => csr(unless_zero(insn.rs1, CsrChange::BitsCleared(a)), insn),
        Op::Csrrwi => csr(CsrChange::Written(insn.rs1 as u64), insn),
        Op::Csrrsi => csr(
            unless_zero(insn.rs1, CsrChange::BitsSet(insn.rs1 as u64)),
            insn,
        ),
        Op::Csrrci => csr(
            unless_zero(insn.rs1, CsrChange::BitsCleared(insn.rs1 as u64)),
            insn,
        ),
        Op::LrW => Action::LoadReserved {
            width: Width::W4,
            va: a,
            rd,
        },
        Op::LrD => Action::LoadReserved {
            width: Width::W8,
            va: a,
            rd,
        },
        Op::ScW => conditional(Width::W4, a, b, rd),
        Op::ScD => conditional(Width::W8, a, b, rd),
        Op::AmoswapW
        | Op::AmoaddW
        | Op::AmoxorW
        | Op::AmoandW
        | Op::AmoorW
        | Op::AmominW
        | Op::AmomaxW
        | Op::AmominuW
        | Op::AmomaxuW => Action::Modify {
            op,
            width: Width::W4,
            va: a,
            value: b,
            rd,
        },
        Op::AmoswapD
        | Op::AmoaddD
        | Op::AmoxorD
        | Op::AmoandD
        | Op::AmoorD
        | Op::AmominD
        | Op::AmomaxD
        | Op::AmominuD
        | Op::AmomaxuD => Action::Modify {
            op,
            width: Width::W8,
            va: a,
            value: b,
            rd,
        },
    }
}

// The value of a register, of which x0 reads 0.
fn register(x: &[u64; 32], number: u8) -> u64
    requires { number < 32 }
    ensures { result ≡ effects.register x.now number }
{
    if number == 0 { 0 } else { x[number as usize] }
}

fn set(rd: u8, value: u64) -> Action
    requires { rd < 32 }
    ensures action { action_of result ≡ effects.Set rd value }
    ensures fits { Fits result }
{
    Action::Set { rd, value }
}

// A jump that links the next instruction.
fn jump(target: u64, rd: u8, next: u64) -> Action
    requires { rd < 32 }
    ensures action { action_of result ≡ effects.Jump target rd next }
    ensures fits { Fits result }
{
    Action::Jump {
        target,
        rd,
        link: next,
    }
}

fn branch(taken: bool, insn: &Insn, pc: u64, next: u64) -> Action
    ensures action { action_of result ≡ effects.branch_if taken insn.now pc next }
    ensures fits { Fits result }
{
    if taken {
        jump(pc.wrapping_add(insn.imm.cast_unsigned()), 0, next)
    } else {
        Action::Continue
    }
}

// Whether a is below b, both as signed numbers.
fn is_less(a: u64, b: u64) -> bool
    ensures { result ≡ effects.below_signed a b }
{
    result(Op::Slt, a, b) == 1
}

fn load(width: Width, signed: bool, insn: &Insn, a: u64) -> Action
    requires { insn.now.rd < 32 }
    ensures action { action_of result ≡ effects.Plain
        (effects.Load (bytes_of width) signed (effects.moved a insn.now.imm) insn.now.rd) }
    ensures fits { Fits result }
{
    Action::Load {
        width,
        signed,
        va: a.wrapping_add(insn.imm.cast_unsigned()),
        rd: insn.rd,
    }
}

fn store(width: Width, insn: &Insn, a: u64, b: u64) -> Action
    ensures action { action_of result ≡ effects.Plain
        (effects.Store (bytes_of width) (effects.moved a insn.now.imm)
        (effects.low_bytes (bytes_of width) b)) }
    ensures fits { Fits result }
{
    Action::Store {
        width,
        va: a.wrapping_add(insn.imm.cast_unsigned()),
        value: low_bytes(width, b),
    }
}

fn conditional(width: Width, a: u64, b: u64, rd: u8) -> Action
    requires { rd < 32 }
    ensures action { action_of result ≡ effects.StoreConditional
        (bytes_of width) a (effects.low_bytes (bytes_of width) b) rd }
    ensures fits { Fits result }
{
    Action::StoreConditional {
        width,
        va: a,
        value: low_bytes(width, b),
        rd,
    }
}

// The CSR that the immediate names.
fn csr(change: CsrChange, insn: &Insn) -> Action
    requires rd { insn.now.rd < 32 }
    requires number { residue 64 insn.now.imm < 4096 }
    ensures action { action_of result ≡ effects.access_csr (change_of change) insn.now }
    ensures fits { Fits result }
{
    Action::AccessCsr {
        number: insn.imm.cast_unsigned() as u16,
        change,
        rd: insn.rd,
    }
}

// Where the register that sets or clears is x0, or the number is 0, nothing is written.
fn unless_zero(field: u8, change: CsrChange) -> CsrChange
    ensures { change_of result ≡ effects.unless_zero field (change_of change) }
{
    if field == 0 {
        CsrChange::Unwritten
    } else {
        change
    }
}
