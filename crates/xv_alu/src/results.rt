//! The result of each operation.

ghost use Rattle.std.specs.Prelude.{◌≡◌, ℕ};
ghost use Rattle.xv_isa.specs.Results.{result_of};

use crate::atomics::{
    greatest, greatest_of_unsigned, greatest_unsigned_word, greatest_word, least,
    least_of_unsigned, least_unsigned_word, least_word,
};
use crate::numbers::{difference, extended_word, is_less_signed, is_less_unsigned, sum};
use crate::products::{high_signed, high_signed_unsigned, high_unsigned, product, product_word};
use crate::quotients::{
    quotient, quotient_of_unsigned, quotient_of_unsigned_word, quotient_word, remainder,
    remainder_of_unsigned, remainder_of_unsigned_word, remainder_word,
};
use crate::shifts::{left, left_word, right, right_signed, right_word, right_word_signed};
use xv_isa::Op;

/// The integer result of an operation. `a` is the value of rs1, or the pc for AUIPC, or the sign
/// extension of the old bytes for an AMO, and LUI doesn't use it; `b` is the value of rs2, the
/// immediate or the shift amount. The result of an AMO is the number that is stored, in a W row the
/// sign extension of its 32 bits. An operation that has no integer result (jumps, branches, loads,
/// stores, fences, CSR rows, LR, SC and the system's) gives 0.
#[tactic(auto, using(crate::proofs::Readings::word_of_wrapped))]
pub fn result(op: Op, a: u64, b: u64) -> u64
    ensures { result ≡ result_of op a b }
{
    match op {
        Op::Lui | Op::AmoswapD => b,
        Op::Auipc | Op::Addi | Op::Add | Op::AmoaddD => sum(a, b),
        Op::Sub => difference(a, b),
        Op::Slti | Op::Slt => is_less_signed(a, b),
        Op::Sltiu | Op::Sltu => is_less_unsigned(a, b),
        Op::Xori | Op::Xor | Op::AmoxorD => a ^ b,
        Op::Ori | Op::Or | Op::AmoorD => a | b,
        Op::Andi | Op::And | Op::AmoandD => a & b,
        Op::Slli | Op::Sll => left(a, b),
        Op::Srli | Op::Srl => right(a, b),
        Op::Srai | Op::Sra => right_signed(a, b),
        Op::Addiw | Op::Addw | Op::AmoaddW => extended_word(sum(a, b)),
        Op::Subw => extended_word(difference(a, b)),
        Op::Slliw | Op::Sllw => left_word(a, b),
        Op::Srliw | Op::Srlw => right_word(a, b),
        Op::Sraiw | Op::Sraw => right_word_signed(a, b),
        Op::Mul => product(a, b),
        Op::Mulh => high_signed(a, b),
        Op::Mulhsu => high_signed_unsigned(a, b),
        Op::Mulhu => high_unsigned(a, b),
        Op::Mulw => product_word(a, b),
        Op::Div => quotient(a, b),
        Op::Divu => quotient_of_unsigned(a, b),
        Op::Rem => remainder(a, b),
        Op::Remu => remainder_of_unsigned(a, b),
        Op::Divw => quotient_word(a, b),
        Op::Divuw => quotient_of_unsigned_word(a, b),
        Op::Remw => remainder_word(a, b),
        Op::Remuw => remainder_of_unsigned_word(a, b),
        Op::AmoswapW => extended_word(b),
        Op::AmoxorW => extended_word(a ^ b),
        Op::AmoandW => extended_word(a & b),
        Op::AmoorW => extended_word(a | b),
        Op::AmominW => extended_word(least_word(a, b)),
        Op::AmomaxW => extended_word(greatest_word(a, b)),
        Op::AmominuW => extended_word(least_unsigned_word(a, b)),
        Op::AmomaxuW => extended_word(greatest_unsigned_word(a, b)),
        Op::AmominD => least(a, b),
        Op::AmomaxD => greatest(a, b),
        Op::AmominuD => least_of_unsigned(a, b),
        Op::AmomaxuD => greatest_of_unsigned(a, b),
        Op::Jal | Op::Jalr | Op::Beq | Op::Bne | Op::Blt | Op::Bge | Op::Bltu | Op::Bgeu => 0,
        Op::Lb | Op::Lh | Op::Lw | Op::Ld | Op::Lbu | Op::Lhu | Op::Lwu => 0,
        Op::Sb | Op::Sh | Op::Sw | Op::Sd | Op::LrW | Op::LrD | Op::ScW | Op::ScD => 0,
        Op::Fence | Op::FenceI | Op::SfenceVma => 0,
        Op::Ecall | Op::Ebreak | Op::Sret | Op::Wfi => 0,
        Op::Csrrw | Op::Csrrs | Op::Csrrc | Op::Csrrwi | Op::Csrrsi | Op::Csrrci => 0,
    }
}
