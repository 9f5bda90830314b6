//! The encoder: the row's fixed bits, and each operand at its place (Unprivileged ISA 20191213,
//! figures 2.2 to 2.4).

ghost use Rattle.std.specs.Prelude.{◌≡◌, ℕ, ◌<◌, ◌≤◌, ◌+◌, ◌*◌, ◌/◌, ◌%◌, ◌^◌, ◌-◌, ℤ, pos, neg_ℤ};
ghost use Rattle.std.specs.Prelude.{◌≤ℤ◌, ◌<ℤ◌, Some, slice_get};
ghost use Rattle.xv_isa.specs.Rows.{rows};
ghost use Rattle.xv_isa.specs.Operands.{decode_of, inst};
ghost use Rattle.xv_isa.specs.Encoding.{
  FitsForm,
  HasBits,
  InRange,
  IsBelow,
  b_places,
  encode_of,
  in_bits,
  j_places,
  placed,
  s_places,
  u_places,
};

use crate::instruction::Insn;
use crate::rows::{Form, Row, row_at};

// `imm`, a number of `width` bits, as those bits.
fn bits_of(imm: i64, width: u32) -> u32
    requires width_in { width ≤ 32 }
    requires low { neg_ℤ (pos (2 ^ width)) ≤ℤ imm }
    requires high { imm <ℤ pos (2 ^ width) }
    ensures value { result ≡ in_bits width imm }
{
    if imm < 0 {
        (imm + (1 << width)) as u32
    } else {
        imm as u32
    }
}

// The bits `high` to `low` of an immediate.
fn piece(bits: u32, high: u32, low: u32) -> u32
    requires high_in { high < 31 }
    requires low_in { low ≤ high }
    ensures { result ≡ bits / 2 ^ low % 2 ^ (high + 1 - low) }
{
    (bits >> low) % (1 << (high + 1 - low))
}

fn registers_r(insn: &Insn) -> u32
    requires rd { insn.now.rd < 32 }
    requires rs1 { insn.now.rs1 < 32 }
    requires rs2 { insn.now.rs2 < 32 }
    ensures { result ≡ insn.now.rd * 2 ^ 7 + insn.now.rs1 * 2 ^ 15 + insn.now.rs2 * 2 ^ 20 }
{
    ((insn.rd as u32) << 7) + ((insn.rs1 as u32) << 15) + ((insn.rs2 as u32) << 20)
}

// The immediates, at the places where their forms have them.
fn immediate_i(imm: i64) -> u32
    requires { HasBits 12 imm }
    ensures { result ≡ in_bits 12 imm * 2 ^ 20 }
{
    bits_of(imm, 12) << 20
}

fn immediate_s(imm: i64) -> u32
    requires { HasBits 12 imm }
    ensures { result ≡ s_places (in_bits 12 imm) }
{
    let bits = bits_of(imm, 12);
    (piece(bits, 4, 0) << 7) + (piece(bits, 11, 5) << 25)
}

fn immediate_b(imm: i64) -> u32
    requires { HasBits 13 imm }
    ensures { result ≡ b_places (in_bits 13 imm) }
{
    let bits = bits_of(imm, 13);
    let low = (piece(bits, 11, 11) << 7) + (piece(bits, 4, 1) << 8);
    low + (piece(bits, 10, 5) << 25) + (piece(bits, 12, 12) << 31)
}

fn immediate_u(imm: i64) -> u32
    requires { HasBits 32 imm }
    ensures { result ≡ u_places (in_bits 32 imm) }
{
    bits_of(imm, 32) >> 12 << 12
}

fn immediate_j(imm: i64) -> u32
    requires { HasBits 21 imm }
    ensures { result ≡ j_places (in_bits 21 imm) }
{
    let bits = bits_of(imm, 21);
    let low = (piece(bits, 19, 12) << 12) + (piece(bits, 11, 11) << 20);
    low + (piece(bits, 10, 1) << 21) + (piece(bits, 20, 20) << 31)
}

// A shift amount, or bits 31 to 20 as they are.
fn upper(imm: i64) -> u32
    requires { IsBelow 4096 imm }
    ensures { result ≡ in_bits 12 imm * 2 ^ 20 }
{
    (imm as u32) << 20
}

// The operands of a row at their places. A field that the form doesn't fill is 0, so adds nothing.
fn operand_bits(row: &Row, insn: &Insn) -> u32
    requires { FitsForm row.now.form row.now.op insn.now }
    ensures { result ≡ placed row.now.form insn.now }
{
    match row.form {
        Form::R | Form::Whole | Form::Sfence => registers_r(insn),
        Form::I => registers_r(insn) + immediate_i(insn.imm),
        Form::S => registers_r(insn) + immediate_s(insn.imm),
        Form::B => registers_r(insn) + immediate_b(insn.imm),
        Form::U => registers_r(insn) + immediate_u(insn.imm),
        Form::J => registers_r(insn) + immediate_j(insn.imm),
        Form::Shift | Form::Csr | Form::Fence => registers_r(insn) + upper(insn.imm),
        Form::Lr | Form::Amo => registers_r(insn) + ((insn.extra as u32) << 25),
    }
}

/// The word of an instruction whose fields are in its row's range.
pub fn encode(insn: &Insn) -> u32
    requires { InRange insn.now }
    ensures value { result ≡ encode_of insn.now }
    ensures decodes { decode_of result ≡ Some insn.now }
    // no other word decodes to this instruction
    ensures only { (word : ℕ) → word < 2 ^ 32 → decode_of word ≡ Some insn.now → word ≡ result }
{
    let row = row_at(insn.row);
    row.bits + operand_bits(row, insn)
}
