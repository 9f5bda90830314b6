//! The queues at their edges.
use super::*;
use std::test::Fail;

// how many bytes are sent; how many of them are dropped, how many are kept, and the oldest
const SENT: [(u32, (u64, usize, Option<u8>)); 5] = [
    (0, (0, 0, None)),
    (1, (0, 1, Some(0))),
    (65536, (0, 65536, Some(0))),
    (65537, (1, 65536, Some(1))),
    (70000, (4464, 65536, Some(0x70))),
];

#[test]
fn output(rt: HostRuntime) -> Result<(), Fail> {
    for (count, wanted) in SENT {
        let mut serial = Vserial::new(rt.alloc())?;
        for byte in 0..count {
            serial.put((byte % 256) as u8);
        }
        let seen = (serial.lost(), serial.kept_len(), serial.kept_at(0));
        assert_eq!(rt; seen, wanted, "{count}");
    }
    Ok(())
}

// bytes that wait, bytes that come, and what is answered
const INPUTS: [(usize, usize, Result<(), InputFull>); 6] = [
    (0, 0, Ok(())),
    (0, 4096, Ok(())),
    (0, 4097, Err(InputFull { free: 4096 })),
    (4095, 1, Ok(())),
    (4095, 2, Err(InputFull { free: 1 })),
    (4096, 1, Err(InputFull { free: 0 })),
];

#[test]
fn input(rt: HostRuntime) -> Result<(), Fail> {
    let bytes = [0x41; 4097];
    let mut serial = Vserial::new(rt.alloc())?;
    for (waiting, coming, answer) in INPUTS {
        assert!(rt; waiting <= 4096 && coming <= 4097);
        serial.refill(&bytes[..waiting], &[3], u64::MAX);
        assert_eq!(rt;
            serial.input(&bytes[..coming]),
            answer,
            "{waiting} {coming}"
        );
    }
    serial.put(5);
    let seen = (
        serial.next(),
        serial.queue_len(),
        serial.kept_at(1),
        serial.lost(),
    );
    assert_eq!(rt; seen, (Some(0x41), 4095, Some(5), u64::MAX));
    Ok(())
}
