use super::*;
use std::test::Fail;

const ARGS: [u64; 6] = [0x1_0000_0003, 0x8000_0000_0000_0005, 7, 8, 9, 10];

const FENCE: Call = Call::Fence {
    mask: 0x1_0000_0003,
    base: 0x8000_0000_0000_0005,
};

// extension, function, and the call
const ROWS: [(u64, u64, Call); 18] = [
    (0, 0, Call::Unknown),
    (0x10, 0, Call::SpecVersion),
    (0x10, 1, Call::ImplId),
    (0x10, 2, Call::ImplVersion),
    (
        0x10,
        3,
        Call::Probe {
            extension: 0x1_0000_0003,
        },
    ),
    (0x10, 4, Call::VendorId),
    (0x10, 5, Call::ArchId),
    (0x10, 6, Call::MachineId),
    (
        0x5449_4D45,
        0,
        Call::SetTimer {
            compare: 0x1_0000_0003,
        },
    ),
    (
        0x73_5049,
        0,
        Call::Ipi {
            mask: 0x1_0000_0003,
            base: 0x8000_0000_0000_0005,
        },
    ),
    (0x5246_4E43, 0, FENCE),
    (0x5246_4E43, 1, FENCE),
    (0x5246_4E43, 2, FENCE),
    (
        0x48_534D,
        0,
        Call::HartStart {
            hart: 0x1_0000_0003,
            address: 0x8000_0000_0000_0005,
            opaque: 7,
        },
    ),
    (0x48_534D, 1, Call::HartStop),
    (
        0x48_534D,
        2,
        Call::HartStatus {
            hart: 0x1_0000_0003,
        },
    ),
    (0x48_534D, 3, Call::HartSuspend { kind: 3 }),
    (0x5352_5354, 0, Call::SystemReset { kind: 3, reason: 5 }),
];

fn row(extension: u64, function: u64) -> Call {
    for (a7, a6, call) in ROWS {
        if a7 == extension && a6 == function {
            return call;
        }
    }
    Call::Unknown
}

// Every row and its neighbours, u64::MAX among them, and the same with high halves set.
#[test]
fn rows(rt: HostRuntime) -> Result<(), Fail> {
    for (a7, _, _) in ROWS {
        for step in [0, 1, u64::MAX, 1 << 32] {
            let extension = a7.wrapping_add(step);
            for function in 0..9u64 {
                let near = call_of(extension, function, ARGS);
                let far = call_of(extension, function + (1 << 32), ARGS);
                let both = (row(extension, function), Call::Unknown);
                assert_eq!(rt; (near, far), both, "{extension} {function}");
            }
        }
    }
    Ok(())
}

// mask, base, how many VCPUs there are, and whether each that is named is there
const MASKS: [(u64, u64, u8, bool); 16] = [
    (0x80, 0, 8, true),
    (0x100, 0, 8, false),
    (0xFF, 0, 8, true),
    (0x1FF, 0, 8, false),
    (1 << 63, 0, 8, false),
    (u64::MAX, 0, 8, false),
    (0x1, 7, 8, true),
    (0x2, 7, 8, false),
    (0x1, 8, 8, false),
    (0, 8, 8, true),
    (0, u64::MAX - 1, 8, true),
    (0x4, u64::MAX - 1, 8, false),
    (1 << 63, u64::MAX - 62, 8, false),
    (0, u64::MAX, 8, true),
    (u64::MAX, u64::MAX, 1, true),
    (0x1, 0, 1, true),
];

#[test]
fn masks(rt: HostRuntime) -> Result<(), Fail> {
    for (mask, base, vcpus, ok) in MASKS {
        assert_eq!(rt; mask_ok(mask, base, vcpus), ok, "{mask} {base} {vcpus}");
    }
    Ok(())
}
