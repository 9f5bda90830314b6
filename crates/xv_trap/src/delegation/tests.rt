//! Delegation, and the registers of a guest that it reads. xv_hcsr has no tests of its own, so that
//! it is proved once.
use super::*;
use std::test::Fail;
use xv_base::GuestKey;

// root, key, and hgatp
const STAGES: [(u8, u8, u64); 4] = [
    (0, 0, 0x8000_0000_0000_0000),
    (1, 2, 0x8000_2000_0000_0004),
    (15, 0, 0x8000_0000_0000_003C),
    (15, 15, 0x8000_F000_0000_003C),
];

#[test]
fn registers_of_a_guest(rt: HostRuntime) -> Result<(), Fail> {
    for (root, key, hgatp) in STAGES {
        assert!(rt; key < 16);
        let expected = HCsrs {
            hstatus: 0x20_0080,
            hedeleg: 0xB15D,
            hideleg: 0x444,
            hvip: 0,
            hgatp,
            htimedelta: 0xFFFF_FFFF_FFFF_FFF9,
            hcounteren: 2,
            htval: 0,
            htinst: 0,
        };
        let mut csrs = HCsrs::for_guest(root, GuestKey(key), 0xFFFF_FFFF_FFFF_FFF9);
        assert_eq!(rt; csrs, expected, "{root} {key}");
        csrs.set_lines(true, false, true);
        assert_eq!(rt; csrs.hvip, 0x404);
        csrs.set_lines(false, true, false);
        assert_eq!(rt; csrs.hvip, 0x40);
    }
    Ok(())
}

// the exceptions and the interrupts that enter a guest
const EXCEPTIONS: [u64; 9] = [0, 2, 3, 4, 6, 8, 12, 13, 15];

const INTERRUPTS: [u64; 3] = [2, 6, 10];

// causes past the bits of a register
const FAR: [u64; 6] = [64, 66, 1 << 32, INTERRUPT - 1, INTERRUPT + 66, u64::MAX];

#[test]
fn causes(rt: HostRuntime) -> Result<(), Fail> {
    let h = HCsrs::for_guest(15, GuestKey(15), 7);
    for number in 0..64u64 {
        let entered = EXCEPTIONS.contains(&number);
        assert_eq!(rt; delegated(&h, number), entered, "{number}");
        let entered = INTERRUPTS.contains(&number);
        assert_eq!(rt; delegated(&h, INTERRUPT + number), entered, "{number}");
    }
    for cause in FAR {
        assert!(rt; !delegated(&h, cause), "{cause}");
    }
    Ok(())
}
