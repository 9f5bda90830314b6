use super::*;
use std::test::Fail;

const SIE: u64 = 1 << 1;

const SPIE: u64 = 1 << 5;

const SPP: u64 = 1 << 8;

// sstatus before, the mode is U, sstatus after a trap, but for UXL
const ENTRIES: [(u64, bool, u64); 8] = [
    (0, false, SPP),
    (SIE, false, SPP | SPIE),
    (SPIE, false, SPP),
    (SIE | SPIE, false, SPP | SPIE),
    (SPP, true, 0),
    (SIE | SPP, true, SPIE),
    (SPIE | SPP, true, 0),
    (SIE | SPIE | SPP, true, SPIE),
];

#[test]
fn entries(rt: HostRuntime) -> Result<(), Fail> {
    let before = SCsrs::reset();
    for (status, user, after) in ENTRIES {
        let mut csrs = before;
        csrs.sstatus |= status | 1 << 18;
        csrs.stvec = 0x8000_1000;
        assert_eq!(rt; enter(&mut csrs, user, 13, 0x77, 0x8000_0010), 0x8000_1000);
        assert_eq!(rt; csrs.sstatus, before.sstatus | after | 1 << 18, "{status}");
        assert_eq!(rt; csrs.sepc, 0x8000_0010);
        assert_eq!(rt; csrs.scause, 13);
        assert_eq!(rt; csrs.stval, 0x77);
    }
    Ok(())
}

// sstatus before, and after SRET, but for UXL, and whether the mode is U then
const RETURNS: [(u64, u64, bool); 8] = [
    (0, SPIE, true),
    (SIE, SPIE, true),
    (SPIE, SIE | SPIE, true),
    (SIE | SPIE, SIE | SPIE, true),
    (SPP, SPIE, false),
    (SIE | SPP, SPIE, false),
    (SPIE | SPP, SIE | SPIE, false),
    (SIE | SPIE | SPP, SIE | SPIE, false),
];

#[test]
fn returns(rt: HostRuntime) -> Result<(), Fail> {
    let before = SCsrs::reset();
    for (status, after, user) in RETURNS {
        let mut csrs = before;
        csrs.sstatus |= status;
        csrs.sepc = 0x8000_0024;
        assert_eq!(rt; leave(&mut csrs), (0x8000_0024, user), "{status}");
        assert_eq!(rt; csrs.sstatus, before.sstatus | after, "{status}");
    }
    Ok(())
}

// stvec, a cause, and the address of its handler
const HANDLERS: [(u64, u64, u64); 6] = [
    (0x8000_1000, INTERRUPT + 9, 0x8000_1000),
    (0x8000_1001, INTERRUPT + 9, 0x8000_1024),
    (0x8000_1001, INTERRUPT + 1, 0x8000_1004),
    (0x8000_1001, INTERRUPT + 5, 0x8000_1014),
    (0x8000_1001, 9, 0x8000_1000),
    (0xFFFF_FFFF_FFFF_FFFD, INTERRUPT + 1, 0),
];

#[test]
fn handlers(rt: HostRuntime) -> Result<(), Fail> {
    for (stvec, cause, address) in HANDLERS {
        let mut csrs = SCsrs::reset();
        csrs.stvec = stvec;
        assert_eq!(rt; enter(&mut csrs, true, cause, 0, 0), address, "{cause}");
    }
    Ok(())
}

// the interrupt that is taken of those that are pending and enabled: of none, of the software
// interrupt (1), of the timer (2), of the external interrupt (4), and of several
const FIRSTS: [Option<u64>; 8] = [
    None,
    Some(0x8000_0000_0000_0001),
    Some(0x8000_0000_0000_0005),
    Some(0x8000_0000_0000_0001),
    Some(0x8000_0000_0000_0009),
    Some(0x8000_0000_0000_0009),
    Some(0x8000_0000_0000_0009),
    Some(0x8000_0000_0000_0009),
];

fn enabled_bits(enabled: u64) -> u64 {
    let software = if enabled % 2 == 1 { 1 << 1 } else { 0 };
    let timer = if enabled / 2 % 2 == 1 { 1 << 5 } else { 0 };
    let external = if enabled / 4 % 2 == 1 { 1 << 9 } else { 0 };
    software | timer | external
}

#[test]
fn choices(rt: HostRuntime) -> Result<(), Fail> {
    for pending in 0..8u64 {
        let lines = Lines {
            timer: pending / 2 % 2 == 1,
            external: pending / 4 % 2 == 1,
        };
        for enabled in 0..8u64 {
            let mut csrs = SCsrs::reset();
            csrs.ssip = pending % 2 == 1;
            csrs.sie = enabled_bits(enabled);
            let both = pending & enabled;
            assert!(rt; both < 8);
            let first = FIRSTS[both as usize];
            assert_eq!(rt; chosen(&csrs, true, lines), first, "{pending} {enabled}");
            assert_eq!(rt; chosen(&csrs, false, lines), None, "{pending} {enabled}");
            csrs.sstatus |= SIE;
            assert_eq!(rt; chosen(&csrs, true, lines), first, "{pending} {enabled}");
            assert_eq!(rt; chosen(&csrs, false, lines), first, "{pending} {enabled}");
        }
    }
    Ok(())
}
