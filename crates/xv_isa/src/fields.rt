//! The fields of an instruction word, read and placed (Unprivileged ISA 20191213, figures 2.2 to
//! 2.4).

ghost use Rattle.std.specs.Prelude.{◌≡◌, ℕ, ◌<◌, ◌≤◌, ◌+◌, ◌*◌, ◌/◌, ◌%◌, ◌^◌, ℤ, pos};
ghost use Rattle.xv_isa.specs.Operands.{
  b_immediate,
  i_immediate,
  j_immediate,
  operands_of,
  ordering_of,
  rd_of,
  rs1_of,
  rs2_of,
  s_immediate,
  shift_amount,
  sign_extended,
  u_immediate,
  upper_twelve,
};

use crate::instruction::Insn;
use crate::rows::Form;

// The `width` bits of a word from bit `low` on.
#[tactic(auto, using(std::proofs::lemmas::Nat::one_shl))]
fn field(word: u32, low: u32, width: u32) -> u32
    requires low_in { low < 32 }
    requires width_in { width < 32 }
    ensures value { result ≡ word / 2 ^ low % 2 ^ width }
    ensures small { result < 2 ^ width }
{
    (word >> low) % (1 << width)
}

// `bits`, of `width` bits, read as a two's complement number.
fn signed(bits: u32, width: u32) -> i64
    requires width_low { 0 < width }
    requires width_high { width ≤ 32 }
    requires bits_in { bits < 2 ^ width }
    ensures { result ≡ sign_extended width bits }
{
    if bits < 1 << (width - 1) {
        bits as i64
    } else {
        bits as i64 - (1 << width)
    }
}

fn rd(word: u32) -> u8
    ensures { result ≡ rd_of word }
{
    field(word, 7, 5) as u8
}

fn rs1(word: u32) -> u8
    ensures { result ≡ rs1_of word }
{
    field(word, 15, 5) as u8
}

fn rs2(word: u32) -> u8
    ensures { result ≡ rs2_of word }
{
    field(word, 20, 5) as u8
}

fn ordering(word: u32) -> u8
    ensures { result ≡ ordering_of word }
{
    field(word, 25, 2) as u8
}

fn immediate_i(word: u32) -> i64
    ensures { result ≡ i_immediate word }
{
    signed(field(word, 20, 12), 12)
}

fn immediate_s(word: u32) -> i64
    ensures { result ≡ s_immediate word }
{
    signed((field(word, 25, 7) << 5) + field(word, 7, 5), 12)
}

fn immediate_b(word: u32) -> i64
    ensures { result ≡ b_immediate word }
{
    let high = (field(word, 31, 1) << 12) + (field(word, 7, 1) << 11);
    signed(
        high + (field(word, 25, 6) << 5) + (field(word, 8, 4) << 1),
        13,
    )
}

fn immediate_u(word: u32) -> i64
    ensures { result ≡ u_immediate word }
{
    signed(field(word, 12, 20) << 12, 32)
}

fn immediate_j(word: u32) -> i64
    ensures { result ≡ j_immediate word }
{
    let high = (field(word, 31, 1) << 20) + (field(word, 12, 8) << 12);
    signed(
        high + (field(word, 20, 1) << 11) + (field(word, 21, 10) << 1),
        21,
    )
}

fn amount(word: u32) -> i64
    ensures { result ≡ shift_amount word }
{
    field(word, 20, 6) as i64
}

fn upper(word: u32) -> i64
    ensures { result ≡ upper_twelve word }
{
    field(word, 20, 12) as i64
}

/// The operands that a form reads from a word, at a row's place.
pub(crate) fn operands(form: Form, row: u8, word: u32) -> Insn
    ensures { result ≡ operands_of form row word }
{
    let none = Insn {
        row,
        rd: 0,
        rs1: 0,
        rs2: 0,
        imm: 0,
        extra: 0,
    };
    match form {
        Form::R => Insn {
            rd: rd(word),
            rs1: rs1(word),
            rs2: rs2(word),
            ..none
        },
        Form::I => Insn {
            rd: rd(word),
            rs1: rs1(word),
            imm: immediate_i(word),
            ..none
        },
        Form::S => Insn {
            rs1: rs1(word),
            rs2: rs2(word),
            imm: immediate_s(word),
            ..none
        },
        Form::B => Insn {
            rs1: rs1(word),
            rs2: rs2(word),
            imm: immediate_b(word),
            ..none
        },
        Form::U => Insn {
            rd: rd(word),
            imm: immediate_u(word),
            ..none
        },
        Form::J => Insn {
            rd: rd(word),
            imm: immediate_j(word),
            ..none
        },
        Form::Shift => Insn {
            rd: rd(word),
            rs1: rs1(word),
            imm: amount(word),
            ..none
        },
        Form::Csr | Form::Fence => Insn {
            rd: rd(word),
            rs1: rs1(word),
            imm: upper(word),
            ..none
        },
        Form::Whole => none,
        Form::Sfence => Insn {
            rs1: rs1(word),
            rs2: rs2(word),
            ..none
        },
        Form::Lr => Insn {
            rd: rd(word),
            rs1: rs1(word),
            extra: ordering(word),
            ..none
        },
        Form::Amo => Insn {
            rd: rd(word),
            rs1: rs1(word),
            rs2: rs2(word),
            extra: ordering(word),
            ..none
        },
    }
}
