//! The instruction table: one list of rows, read as the table here and as the decoder's arms below.
//! Rows are those of RV64I, M, A, Zicsr and Zifencei (Unprivileged ISA 20191213, chapter 24) and of
//! the supervisor (Privileged Architecture 20211203, sections 3.3.2, 3.3.3 and 4.2.1).

ghost use Rattle.std.specs.Prelude.{◌≡◌, ℕ, ◌<◌, ◌^◌, Some, slice_get};
ghost use Rattle.xv_isa.specs.Rows.{rows, Matches, operation_at};

use crate::instruction::Insn;

/// What an instruction does: one operation for each row of the table, under the row's name.
#[derive(Clone, Copy, PartialEq, Eq, Debug)]
pub enum Op {
    Lui,
    Auipc,
    Jal,
    Jalr,
    Beq,
    Bne,
    Blt,
    Bge,
    Bltu,
    Bgeu,
    Lb,
    Lh,
    Lw,
    Ld,
    Lbu,
    Lhu,
    Lwu,
    Sb,
    Sh,
    Sw,
    Sd,
    Addi,
    Slti,
    Sltiu,
    Xori,
    Ori,
    Andi,
    Slli,
    Srli,
    Srai,
    Addiw,
    Slliw,
    Srliw,
    Sraiw,
    Add,
    Sll,
    Slt,
    Sltu,
    Xor,
    Srl,
    Or,
    And,
    Sub,
    Sra,
    Mul,
    Mulh,
    Mulhsu,
    Mulhu,
    Div,
    Divu,
    Rem,
    Remu,
    Addw,
    Sllw,
    Srlw,
    Subw,
    Sraw,
    Mulw,
    Divw,
    Divuw,
    Remw,
    Remuw,
    Fence,
    FenceI,
    Ecall,
    Ebreak,
    Sret,
    Wfi,
    SfenceVma,
    Csrrw,
    Csrrs,
    Csrrc,
    Csrrwi,
    Csrrsi,
    Csrrci,
    LrW,
    LrD,
    ScW,
    ScD,
    AmoswapW,
    AmoswapD,
    AmoaddW,
    AmoaddD,
    AmoxorW,
    AmoxorD,
    AmoandW,
    AmoandD,
    AmoorW,
    AmoorD,
    AmominW,
    AmominD,
    AmomaxW,
    AmomaxD,
    AmominuW,
    AmominuD,
    AmomaxuW,
    AmomaxuD,
}

/// How a row's operands lie in the word (Unprivileged ISA 20191213, sections 2.2 and 2.3, and the
/// drawings of chapters 8 and 9). The fields of `Insn` that a form doesn't fill are 0.
#[derive(Clone, Copy, PartialEq, Eq, Debug)]
pub enum Form {
    /// rd, rs1, rs2
    R,
    /// rd, rs1, imm
    I,
    /// rs1, rs2, imm
    S,
    /// rs1, rs2, imm: a branch's offset
    B,
    /// rd, imm: the upper 20 bits, times 4,096
    U,
    /// rd, imm: a jump's offset
    J,
    /// rd, rs1, imm: the shift amount
    Shift,
    /// rd, rs1, imm: the register's number, 0 to 4,095; rs1 is a register or a 5-bit number
    Csr,
    /// rd, rs1, imm: bits 31 to 20, 0 to 4,095
    Fence,
    /// no operand
    Whole,
    /// rs1, rs2
    Sfence,
    /// rd, rs1, extra: bits 26 (aq) and 25 (rl)
    Lr,
    /// rd, rs1, rs2, extra: bits 26 (aq) and 25 (rl)
    Amo,
}

/// A row of the table: a word is of this row exactly where `word & mask` is `bits`.
#[derive(Clone, Copy, Debug)]
pub struct Row {
    pub mask: u32,
    pub bits: u32,
    pub form: Form,
    pub op: Op,
}

/// A table of `N` rows.
#[derive(Debug)]
pub struct Table<const N: usize> {
    pub rows: [Row; N],
}

/// The number of rows.
pub const ROW_COUNT: usize = 97;

// The rows by major opcode and mask: place, bits, form, operation. `$reader` is a macro that takes
// the list.
macro_rules! instruction_rows {
    ($reader:ident!($($start:tt)*)) => {
        $reader! {
            $($start)*
            opcode 0x37 {
                mask 0x0000_007f {
                    0 0x0000_0037 U Lui,
                }
            }
            opcode 0x17 {
                mask 0x0000_007f {
                    1 0x0000_0017 U Auipc,
                }
            }
            opcode 0x6f {
                mask 0x0000_007f {
                    2 0x0000_006f J Jal,
                }
            }
            opcode 0x67 {
                mask 0x0000_707f {
                    3 0x0000_0067 I Jalr,
                }
            }
            opcode 0x63 {
                mask 0x0000_707f {
                    4 0x0000_0063 B Beq,
                    5 0x0000_1063 B Bne,
                    6 0x0000_4063 B Blt,
                    7 0x0000_5063 B Bge,
                    8 0x0000_6063 B Bltu,
                    9 0x0000_7063 B Bgeu,
                }
            }
            opcode 0x03 {
                mask 0x0000_707f {
                    10 0x0000_0003 I Lb,
                    11 0x0000_1003 I Lh,
                    12 0x0000_2003 I Lw,
                    13 0x0000_3003 I Ld,
                    14 0x0000_4003 I Lbu,
                    15 0x0000_5003 I Lhu,
                    16 0x0000_6003 I Lwu,
                }
            }
            opcode 0x23 {
                mask 0x0000_707f {
                    17 0x0000_0023 S Sb,
                    18 0x0000_1023 S Sh,
                    19 0x0000_2023 S Sw,
                    20 0x0000_3023 S Sd,
                }
            }
            opcode 0x13 {
                mask 0x0000_707f {
                    21 0x0000_0013 I Addi,
                    22 0x0000_2013 I Slti,
                    23 0x0000_3013 I Sltiu,
                    24 0x0000_4013 I Xori,
                    25 0x0000_6013 I Ori,
                    26 0x0000_7013 I Andi,
                }
                mask 0xfc00_707f {
                    27 0x0000_1013 Shift Slli,
                    28 0x0000_5013 Shift Srli,
                    29 0x4000_5013 Shift Srai,
                }
            }
            opcode 0x1b {
                mask 0x0000_707f {
                    30 0x0000_001b I Addiw,
                }
                mask 0xfe00_707f {
                    31 0x0000_101b Shift Slliw,
                    32 0x0000_501b Shift Srliw,
                    33 0x4000_501b Shift Sraiw,
                }
            }
            opcode 0x33 {
                mask 0xfe00_707f {
                    34 0x0000_0033 R Add,
                    35 0x0000_1033 R Sll,
                    36 0x0000_2033 R Slt,
                    37 0x0000_3033 R Sltu,
                    38 0x0000_4033 R Xor,
                    39 0x0000_5033 R Srl,
                    40 0x0000_6033 R Or,
                    41 0x0000_7033 R And,
                    42 0x4000_0033 R Sub,
                    43 0x4000_5033 R Sra,
                    44 0x0200_0033 R Mul,
                    45 0x0200_1033 R Mulh,
                    46 0x0200_2033 R Mulhsu,
                    47 0x0200_3033 R Mulhu,
                    48 0x0200_4033 R Div,
                    49 0x0200_5033 R Divu,
                    50 0x0200_6033 R Rem,
                    51 0x0200_7033 R Remu,
                }
            }
            opcode 0x3b {
                mask 0xfe00_707f {
                    52 0x0000_003b R Addw,
                    53 0x0000_103b R Sllw,
                    54 0x0000_503b R Srlw,
                    55 0x4000_003b R Subw,
                    56 0x4000_503b R Sraw,
                    57 0x0200_003b R Mulw,
                    58 0x0200_403b R Divw,
                    59 0x0200_503b R Divuw,
                    60 0x0200_603b R Remw,
                    61 0x0200_703b R Remuw,
                }
            }
            opcode 0x0f {
                mask 0x0000_707f {
                    62 0x0000_000f Fence Fence,
                    63 0x0000_100f Fence FenceI,
                }
            }
            opcode 0x73 {
                mask 0xffff_ffff {
                    64 0x0000_0073 Whole Ecall,
                    65 0x0010_0073 Whole Ebreak,
                    66 0x1020_0073 Whole Sret,
                    67 0x1050_0073 Whole Wfi,
                }
                mask 0xfe00_7fff {
                    68 0x1200_0073 Sfence SfenceVma,
                }
                mask 0x0000_707f {
                    69 0x0000_1073 Csr Csrrw,
                    70 0x0000_2073 Csr Csrrs,
                    71 0x0000_3073 Csr Csrrc,
                    72 0x0000_5073 Csr Csrrwi,
                    73 0x0000_6073 Csr Csrrsi,
                    74 0x0000_7073 Csr Csrrci,
                }
            }
            opcode 0x2f {
                mask 0xf9f0_707f {
                    75 0x1000_202f Lr LrW,
                    76 0x1000_302f Lr LrD,
                }
                mask 0xf800_707f {
                    77 0x1800_202f Amo ScW,
                    78 0x1800_302f Amo ScD,
                    79 0x0800_202f Amo AmoswapW,
                    80 0x0800_302f Amo AmoswapD,
                    81 0x0000_202f Amo AmoaddW,
                    82 0x0000_302f Amo AmoaddD,
                    83 0x2000_202f Amo AmoxorW,
                    84 0x2000_302f Amo AmoxorD,
                    85 0x6000_202f Amo AmoandW,
                    86 0x6000_302f Amo AmoandD,
                    87 0x4000_202f Amo AmoorW,
                    88 0x4000_302f Amo AmoorD,
                    89 0x8000_202f Amo AmominW,
                    90 0x8000_302f Amo AmominD,
                    91 0xa000_202f Amo AmomaxW,
                    92 0xa000_302f Amo AmomaxD,
                    93 0xc000_202f Amo AmominuW,
                    94 0xc000_302f Amo AmominuD,
                    95 0xe000_202f Amo AmomaxuW,
                    96 0xe000_302f Amo AmomaxuD,
                }
            }
        }
    };
}

pub(crate) use instruction_rows;

macro_rules! rows_of {
    ($(opcode $opcode:literal {
        $(mask $mask:literal { $($place:literal $bits:literal $form:ident $op:ident,)* })*
    })*) => {
        [$($($(Row { mask: $mask, bits: $bits, form: Form::$form, op: Op::$op },)*)*)*]
    };
}

static ROWS: [Row; ROW_COUNT] = instruction_rows!(rows_of!());

/// The table, whose rows an instruction names by their place.
pub static TABLE: Table<ROW_COUNT> = Table {
    rows: instruction_rows!(rows_of!()),
};

/// The law that the table is the standard's.
#[tactic(auto, unfolding(crate::specs::Rows::rows))]
pub fn table_is_the_standards()
    ensures { TABLE.rows ≡ rows }
{}

/// The row at a place.
#[tactic(auto, unfolding(crate::specs::Rows::rows))]
pub(crate) fn row_at(place: u8) -> &'static Row
    requires { place < 97 }
    ensures { slice_get rows place ≡ Some result.now }
{
    &ROWS[place as usize]
}

/// The law that no word is of two rows.
#[tactic(auto, using(crate::proofs::OneRow::one_row))]
pub fn no_two_rows_match()
    ensures { (word j k : ℕ) (r s : Row) → slice_get rows j ≡ Some r → slice_get rows k ≡ Some s
        → Matches word r → Matches word s → j ≡ k }
{}

/// The operation of an instruction.
#[tactic(auto, using(crate::proofs::OneRow::operation_from_row))]
pub fn op_of(insn: &Insn) -> Op
    requires { insn.now.row < 97 }
    ensures { result ≡ operation_at insn.now.row }
{
    row_at(insn.row).op
}
