//! Words as an assembler makes them, and what a device sees of them.
use crate::{emulate, write_back};
use std::test::Fail;
use xv_bus::{Access, Width};
use xv_isa::decode;

/// The integer registers: x5 is -128, and each other one is its number.
const REGISTERS: [u64; 32] = [
    0,
    1,
    2,
    3,
    4,
    0xffff_ffff_ffff_ff80,
    6,
    7,
    8,
    9,
    10,
    11,
    12,
    13,
    14,
    15,
    16,
    17,
    18,
    19,
    20,
    21,
    22,
    23,
    24,
    25,
    26,
    27,
    28,
    29,
    30,
    31,
];

/// Values of which each part has its highest bit set, or none has.
const HIGH: u64 = 0xfedc_ba98_f6f4_f2f0;

const LOW: u64 = 0x123_4567_7654_3210;

// a word, its access, the value that a device has for a load, and what x6 is then
const ROWS: [(u32, Option<Access>, u64, u64); 36] = [
    // lb x6, 4(x10)
    (
        0x0045_0303,
        Some(Access::Load(Width::W1)),
        HIGH,
        0xffff_ffff_ffff_fff0,
    ),
    (0x0045_0303, Some(Access::Load(Width::W1)), LOW, 0x10),
    // lh x6, 4(x10)
    (
        0x0045_1303,
        Some(Access::Load(Width::W2)),
        HIGH,
        0xffff_ffff_ffff_f2f0,
    ),
    (0x0045_1303, Some(Access::Load(Width::W2)), LOW, 0x3210),
    // lw x6, 4(x10)
    (
        0x0045_2303,
        Some(Access::Load(Width::W4)),
        HIGH,
        0xffff_ffff_f6f4_f2f0,
    ),
    (0x0045_2303, Some(Access::Load(Width::W4)), LOW, 0x7654_3210),
    // ld x6, 4(x10)
    (
        0x0045_3303,
        Some(Access::Load(Width::W8)),
        HIGH,
        0xfedc_ba98_f6f4_f2f0,
    ),
    (
        0x0045_3303,
        Some(Access::Load(Width::W8)),
        LOW,
        0x123_4567_7654_3210,
    ),
    // ld x0, 4(x10)
    (0x0045_3003, Some(Access::Load(Width::W8)), HIGH, 6),
    // lbu x6, 4(x10)
    (0x0045_4303, Some(Access::Load(Width::W1)), HIGH, 0xf0),
    (0x0045_4303, Some(Access::Load(Width::W1)), LOW, 0x10),
    // lhu x6, 4(x10)
    (0x0045_5303, Some(Access::Load(Width::W2)), HIGH, 0xf2f0),
    (0x0045_5303, Some(Access::Load(Width::W2)), LOW, 0x3210),
    // lwu x6, 4(x10)
    (
        0x0045_6303,
        Some(Access::Load(Width::W4)),
        HIGH,
        0xf6f4_f2f0,
    ),
    (0x0045_6303, Some(Access::Load(Width::W4)), LOW, 0x7654_3210),
    // sb x5, -4(x10)
    (0xfe55_0e23, Some(Access::Store(Width::W1, 0x80)), HIGH, 6),
    // sh x5, -4(x10)
    (0xfe55_1e23, Some(Access::Store(Width::W2, 0xff80)), HIGH, 6),
    // sw x5, -4(x10)
    (
        0xfe55_2e23,
        Some(Access::Store(Width::W4, 0xffff_ff80)),
        HIGH,
        6,
    ),
    // sd x5, -4(x10)
    (
        0xfe55_3e23,
        Some(Access::Store(Width::W8, 0xffff_ffff_ffff_ff80)),
        HIGH,
        6,
    ),
    // sd x0, 0(x10)
    (0x0005_3023, Some(Access::Store(Width::W8, 0)), HIGH, 6),
    // lr.w x6,(x10)
    (0x1005_232f, None, HIGH, 6),
    // lr.d x6,(x10)
    (0x1005_332f, None, HIGH, 6),
    // sc.w x6,x5,(x10)
    (0x1855_232f, None, HIGH, 6),
    // sc.d x6,x5,(x10)
    (0x1855_332f, None, HIGH, 6),
    // amoswap.w x6,x5,(x10)
    (0x0855_232f, None, HIGH, 6),
    // amoadd.d x6,x5,(x10)
    (0x0055_332f, None, HIGH, 6),
    // addi x6,x10,4
    (0x0045_0313, None, HIGH, 6),
    // lui x6,4
    (0x0000_4337, None, HIGH, 6),
    // auipc x6,4
    (0x0000_4317, None, HIGH, 6),
    // jalr x6,4(x10)
    (0x0045_0367, None, HIGH, 6),
    // beq x5,x5,.+8
    (0x0052_8463, None, HIGH, 6),
    // csrrw x6,sscratch,x5
    (0x1402_9373, None, HIGH, 6),
    // fence
    (0x0ff0_000f, None, HIGH, 6),
    // ecall
    (0x0000_0073, None, HIGH, 6),
    // wfi
    (0x1050_0073, None, HIGH, 6),
    // sfence.vma
    (0x1200_0073, None, HIGH, 6),
];

#[test]
fn rows(rt: HostRuntime) -> Result<(), Fail> {
    for (word, access, value, x6) in ROWS {
        let insn = decode(word).ok_or("no row")?;
        let mut x = REGISTERS;
        let found = emulate(&insn, &x);
        if let Some(Access::Load(_)) = found {
            write_back(&insn, &mut x, value);
        }
        let mut after = REGISTERS;
        after[6] = x6;
        assert_eq!(rt;
            (found, x.as_slice()),
            (access, after.as_slice()),
            "{word:#x}"
        );
    }
    Ok(())
}
