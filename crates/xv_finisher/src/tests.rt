//! Each width, offset and word.

use super::*;
use std::test::Fail;
use xv_bus::NoMem;

// an offset, an access, and what it comes to
const ROWS: [(u64, Access, Outcome); 17] = [
    (0, Access::Load(Width::W4), Outcome::Value(0)),
    (4, Access::Load(Width::W4), Outcome::Value(0)),
    (2, Access::Load(Width::W4), Outcome::Refused),
    (0, Access::Load(Width::W1), Outcome::Refused),
    (0, Access::Load(Width::W2), Outcome::Refused),
    (0, Access::Load(Width::W8), Outcome::Refused),
    (0, Access::Store(Width::W1, 0x55), Outcome::Refused),
    (0, Access::Store(Width::W2, 0x5555), Outcome::Refused),
    (0, Access::Store(Width::W8, 0x5555), Outcome::Refused),
    (2, Access::Store(Width::W4, 0x5555), Outcome::Refused),
    (4, Access::Store(Width::W4, 0x5555), Outcome::Done),
    (
        0,
        Access::Store(Width::W4, 0x5555),
        Outcome::Halt(Ending::Pass),
    ),
    (
        0,
        Access::Store(Width::W4, 0xFFFF_5555),
        Outcome::Halt(Ending::Pass),
    ),
    (
        0,
        Access::Store(Width::W4, 0x3333),
        Outcome::Halt(Ending::Fail(0)),
    ),
    (
        0,
        Access::Store(Width::W4, 0xFFFE_3333),
        Outcome::Halt(Ending::Fail(0xFFFE)),
    ),
    (0, Access::Store(Width::W4, 0x0001_7777), Outcome::Reboot),
    (0, Access::Store(Width::W4, 0x5554), Outcome::Done),
];

#[test]
fn accesses(rt: HostRuntime) -> Result<(), Fail> {
    let mut finisher = Finisher::new();
    for (at, access, outcome) in ROWS {
        assert!(rt; access.fits());
        assert_eq!(rt;
            finisher.access(at, access, &mut NoMem),
            outcome,
            "{at} {access:?}"
        );
    }
    finisher.reset();
    assert!(rt; !finisher.line());
    Ok(())
}
