use super::*;
use std::test::Fail;

const NO_LINES: Lines = Lines {
    timer: false,
    external: false,
};

const ALL_LINES: Lines = Lines {
    timer: true,
    external: true,
};

// number, what it reads after a write of ones, and after a write of zeros
const REGISTERS: [(u16, u64, u64); 11] = [
    (0x100, 0x2_000C_0122, 0x2_0000_0000),
    (0x104, 0x222, 0),
    (0x105, 0xFFFF_FFFF_FFFF_FFFC, 0),
    (0x106, 2, 0),
    (0x10A, 1, 0),
    (0x140, 0xFFFF_FFFF_FFFF_FFFF, 0),
    (0x141, 0xFFFF_FFFF_FFFF_FFFC, 0),
    (0x142, 0xFFFF_FFFF_FFFF_FFFF, 0),
    (0x143, 0xFFFF_FFFF_FFFF_FFFF, 0),
    (0x144, 2, 0),
    (0x180, 0, 0),
];

fn row(number: u16) -> Option<(u64, u64)> {
    for (register, ones, zeros) in REGISTERS {
        if register == number {
            return Some((ones, zeros));
        }
    }
    None
}

// Every number that an instruction can name, in both modes.
#[test]
fn all_numbers(rt: HostRuntime) -> Result<(), Fail> {
    for number in 0..0x1000 {
        let mut csrs = SCsrs::reset();
        assert!(rt; !csrs.write(number, true, u64::MAX), "{number}");
        assert_eq!(rt; csrs.read(number, true, NO_LINES, 7), None, "{number}");
        assert_eq!(rt; csrs, SCsrs::reset(), "{number}");
        match row(number) {
            Some((ones, zeros)) => {
                assert!(rt; csrs.write(number, false, u64::MAX), "{number}");
                assert_eq!(rt;
                    csrs.read(number, false, NO_LINES, 7),
                    Some(ones),
                    "{number}"
                );
                assert!(rt; csrs.write(number, false, 0), "{number}");
                assert_eq!(rt;
                    csrs.read(number, false, NO_LINES, 7),
                    Some(zeros),
                    "{number}"
                );
                assert_eq!(rt; csrs, SCsrs::reset(), "{number}");
            }
            None => {
                assert!(rt; !csrs.write(number, false, u64::MAX), "{number}");
                let time = if number == 0xC01 { Some(7) } else { None };
                assert_eq!(rt; csrs.read(number, false, NO_LINES, 7), time, "{number}");
                assert_eq!(rt; csrs, SCsrs::reset(), "{number}");
            }
        }
    }
    Ok(())
}

// number, a value that is written after a reset, and what is read then
const WRITES: [(u16, u64, u64); 9] = [
    (0x105, 0x8000_0001, 0x8000_0001),
    (0x105, 0x8000_0002, 0x8000_0000),
    (0x105, 0x8000_0007, 0x8000_0004),
    (0x141, 0x8000_0006, 0x8000_0004),
    (0x144, 0x220, 0),
    (0x180, 0x8FFF_FFFF_FFFF_FFFF, 0x8000_0FFF_FFFF_FFFF),
    (0x180, 0x0FFF_FFFF_FFFF_FFFF, 0x0000_0FFF_FFFF_FFFF),
    (0x180, 0x9000_0000_0000_0001, 0),
    (0x180, 0x1000_0000_0000_0001, 0),
];

#[test]
fn single_writes(rt: HostRuntime) -> Result<(), Fail> {
    for (number, value, kept) in WRITES {
        let mut csrs = SCsrs::reset();
        assert!(rt; csrs.write(number, false, value), "{number}");
        assert_eq!(rt;
            csrs.read(number, false, NO_LINES, 0),
            Some(kept),
            "{number}"
        );
    }
    let mut csrs = SCsrs::reset();
    assert!(rt; csrs.write(0x180, false, 0x0000_0000_0008_0001));
    assert!(rt; csrs.write(0x180, false, 0x9000_0000_0000_0003));
    assert_eq!(rt; csrs.satp, 0x0000_0000_0008_0001);
    Ok(())
}

#[test]
fn lines_and_time(rt: HostRuntime) -> Result<(), Fail> {
    let mut csrs = SCsrs::reset();
    assert_eq!(rt; csrs.read(0x144, false, ALL_LINES, 0), Some(0x220));
    assert!(rt; csrs.write(0x144, false, 2));
    assert_eq!(rt; csrs.read(0x144, false, ALL_LINES, 0), Some(0x222));
    assert!(rt; csrs.write(0x104, false, 0x202));
    assert_eq!(rt; csrs.pending(ALL_LINES), 0x202);
    assert_eq!(rt; csrs.read(0xC01, true, NO_LINES, 9), None);
    assert!(rt; csrs.write(0x106, false, 2));
    assert_eq!(rt; csrs.read(0xC01, true, NO_LINES, 9), Some(9));
    assert!(rt; !csrs.write(0xC01, false, 9));
    Ok(())
}
