//! The whole table against a scan of its rows, and words that an assembler made.

use crate::rows::row_at;
use crate::{Op, decode, encode, op_of};
use std::test::Fail;

// The first row that a word matches, by trying each.
fn scan(word: u32) -> Option<u8> {
    for place in 0..97u8 {
        let row = row_at(place);
        if word & row.mask == row.bits {
            return Some(place);
        }
    }
    None
}

fn decoded_row(word: u32) -> Option<u8> {
    let insn = decode(word)?;
    Some(insn.row)
}

#[test]
fn each_row_by_its_bits(rt: HostRuntime) -> Result<(), Fail> {
    for place in 0..97u8 {
        let row = row_at(place);
        assert_eq!(rt; decoded_row(row.bits), Some(place));
        assert_eq!(rt; decoded_row(row.bits | !row.mask), Some(place));
        for bit in 0..32u32 {
            let flipped = row.bits ^ (row.mask & (1 << bit));
            assert_eq!(rt; decoded_row(flipped), scan(flipped));
        }
    }
    Ok(())
}

// An operation with its rd, rs1, rs2, immediate and ordering.
#[derive(Clone, Copy)]
struct Worked(u32, Op, u8, u8, u8, i64, u8);

static WORKED: [Worked; 41] = [
    Worked(0x8000_02b7, Op::Lui, 5, 0, 0, -0x8000_0000, 0),
    Worked(0xffff_f297, Op::Auipc, 5, 0, 0, -4096, 0),
    Worked(0xffdf_f0ef, Op::Jal, 1, 0, 0, -4, 0),
    Worked(0x7fe0_006f, Op::Jal, 0, 0, 0, 0x7fe, 0),
    Worked(0x7fff_f06f, Op::Jal, 0, 0, 0, 0xf_fffe, 0),
    Worked(0xfff1_00e7, Op::Jalr, 1, 2, 0, -1, 0),
    Worked(0x8020_8063, Op::Beq, 0, 1, 2, -4096, 0),
    Worked(0x7fef_ffe3, Op::Bgeu, 0, 31, 30, 4094, 0),
    Worked(0x0062_90e3, Op::Bne, 0, 5, 6, 2048, 0),
    Worked(0x8001_8083, Op::Lb, 1, 3, 0, -2048, 0),
    Worked(0x7ff4_6383, Op::Lwu, 7, 8, 0, 2047, 0),
    Worked(0xfe95_3fa3, Op::Sd, 0, 10, 9, -1, 0),
    Worked(0x0011_0fa3, Op::Sb, 0, 2, 1, 31, 0),
    Worked(0x0070_0293, Op::Addi, 5, 0, 0, 7, 0),
    Worked(0xfff2_8313, Op::Addi, 6, 5, 0, -1, 0),
    Worked(0x03f1_1093, Op::Slli, 1, 2, 0, 63, 0),
    Worked(0x4201_5093, Op::Srai, 1, 2, 0, 32, 0),
    Worked(0x41f1_509b, Op::Sraiw, 1, 2, 0, 31, 0),
    Worked(0xffd1_009b, Op::Addiw, 1, 2, 0, -3, 0),
    Worked(0x0062_83b3, Op::Add, 7, 5, 6, 0, 0),
    Worked(0x4031_50b3, Op::Sra, 1, 2, 3, 0, 0),
    Worked(0x0262_a233, Op::Mulhsu, 4, 5, 6, 0, 0),
    Worked(0x03df_7fbb, Op::Remuw, 31, 30, 29, 0, 0),
    Worked(0x4031_00bb, Op::Subw, 1, 2, 3, 0, 0),
    Worked(0x0310_000f, Op::Fence, 0, 0, 0, 0x031, 0),
    Worked(0x0000_100f, Op::FenceI, 0, 0, 0, 0, 0),
    Worked(0x0000_0073, Op::Ecall, 0, 0, 0, 0, 0),
    Worked(0x0010_0073, Op::Ebreak, 0, 0, 0, 0, 0),
    Worked(0x1020_0073, Op::Sret, 0, 0, 0, 0, 0),
    Worked(0x1050_0073, Op::Wfi, 0, 0, 0, 0, 0),
    Worked(0x1262_8073, Op::SfenceVma, 0, 5, 6, 0, 0),
    Worked(0x1803_1073, Op::Csrrw, 0, 6, 0, 0x180, 0),
    Worked(0x1001_61f3, Op::Csrrsi, 3, 2, 0, 0x100, 0),
    Worked(0xc010_30f3, Op::Csrrc, 1, 0, 0, 0xc01, 0),
    Worked(0x1000_33af, Op::LrD, 7, 0, 0, 0, 0),
    Worked(0x1600_a3af, Op::LrW, 7, 1, 0, 0, 3),
    Worked(0x1a42_a1af, Op::ScW, 3, 5, 4, 0, 1),
    Worked(0x0c21_b0af, Op::AmoswapD, 1, 3, 2, 0, 2),
    Worked(0xe7ee_afaf, Op::AmomaxuW, 31, 29, 30, 0, 3),
    Worked(0x0021_b0af, Op::AmoaddD, 1, 3, 2, 0, 0),
    Worked(0x0000_006f, Op::Jal, 0, 0, 0, 0, 0),
];

#[test]
fn assembled_words(rt: HostRuntime) -> Result<(), Fail> {
    for worked in &WORKED {
        let Worked(word, op, rd, rs1, rs2, imm, extra) = *worked;
        let insn = decode(word).ok_or("a row")?;
        assert_eq!(rt; op_of(&insn), op, "{word}");
        assert_eq!(rt; (insn.rd, insn.rs1, insn.rs2), (rd, rs1, rs2), "{word}");
        assert_eq!(rt; (insn.imm, insn.extra), (imm, extra), "{word}");
        assert_eq!(rt; encode(&insn), word, "{word}");
    }
    assert_eq!(rt; decode(0), None);
    assert_eq!(rt; decode(0xffff_ffff), None);
    Ok(())
}
