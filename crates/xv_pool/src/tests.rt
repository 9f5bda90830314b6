use super::*;
use std::test::Fail;

const AREA: Span = Span {
    start: 0,
    len: u64::MAX,
};

#[test]
fn every_root_taken_and_given(rt: HostRuntime) -> Result<(), Fail> {
    let mut pool = Pool::new(rt.alloc(), 64, 1, AREA)?;
    for expected in 0..16u8 {
        let root = pool.take_root()?;
        pool.give_root(root);
        let again = pool.take_root()?;
        assert_eq!(rt; (root, again), (expected, expected));
    }
    assert_eq!(rt; pool.test(2, &[]), Err(PoolFault::NoRoot));
    Ok(())
}

#[tactic(auto, unfolding(crate::specs::FrameList::up_from))]
#[test]
fn frames_to_the_last_one(rt: HostRuntime) -> Result<(), Fail> {
    let mut pool = Pool::new(rt.alloc(), 64, 5, AREA)?;
    let mut frames = Vec::with_capacity(rt.alloc(), 6)?;
    let six = pool.test(6, &[]);
    pool.take_n(5, &mut frames)?;
    pool.give(66);
    pool.take_n(1, &mut frames)?;
    let one = pool.test(1, &[]);
    let wanted = (
        Err(PoolFault::NoFrame { need: 6, free: 5 }),
        Err(PoolFault::NoFrame { need: 1, free: 0 }),
    );
    assert_eq!(rt; (six, one), wanted);
    assert_eq!(rt; frames.as_slice(), [64, 65, 66, 67, 68, 66].as_slice());
    Ok(())
}

/// The answer where a range shares no byte with a held one.
const FREE: Result<(), PoolFault> = Ok(());

/// The answer where it shares one.
const BUSY: Result<(), PoolFault> = Err(PoolFault::ReservedBusy);

// start and length of a range that is taken and of another, and what is said of the other
const PAIRS: [(u16, u16, u16, u16, Result<(), PoolFault>); 12] = [
    (0x1000, 0x1000, 0x2000, 0x1000, FREE),
    (0x2000, 0x1000, 0x1000, 0x1000, FREE),
    (0x1000, 0x1001, 0x2000, 0x1000, BUSY),
    (0x2000, 0x1000, 0x1000, 0x1001, BUSY),
    (0x1000, 0x1000, 0x1000, 0x1000, BUSY),
    (0x1000, 0x3000, 0x2000, 0x1000, BUSY),
    (0x2000, 0x1000, 0x1000, 0x3000, BUSY),
    (0x1000, 0, 0x1000, 0, FREE),
    (0x1000, 0x1000, 0x1000, 0, FREE),
    (0x1000, 0x1000, 0x1800, 0, FREE),
    (0x1800, 0, 0x1000, 0x1000, FREE),
    (0x1000, 1, 0x1000, 1, BUSY),
];

#[test]
fn ranges_in_pairs(rt: HostRuntime) -> Result<(), Fail> {
    for (start, len, other_start, other_len, answer) in PAIRS {
        let range = Span {
            start: start as u64,
            len: len as u64,
        };
        let other = Span {
            start: other_start as u64,
            len: other_len as u64,
        };
        let mut pool = Pool::new(rt.alloc(), 64, 1, AREA)?;
        pool.take_reserved(range)?;
        assert_eq!(rt; pool.test(1, &[other]), answer, "{start} {other_start}");
    }
    Ok(())
}

// Room for 512 ranges, once one more was given back.
#[test]
fn as_many_ranges_as_there_are_regions(rt: HostRuntime) -> Result<(), Fail> {
    let mut pool = Pool::new(rt.alloc(), 64, 1, AREA)?;
    pool.take_reserved(AREA)?;
    pool.give_reserved(AREA);
    for place in 0..512u64 {
        pool.take_reserved(Span {
            start: place * 4096,
            len: 4096,
        })?;
    }
    let last = Span {
        start: 511 * 4096 + 4095,
        len: 1,
    };
    let behind = Span {
        start: 512 * 4096,
        len: 1,
    };
    let seen = (pool.test(1, &[behind]), pool.test(1, &[behind, last]));
    assert_eq!(rt; seen, (FREE, BUSY));
    Ok(())
}
