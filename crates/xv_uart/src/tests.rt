//! Worked rows, every register, widths, input at its edges, and what is kept.
ghost use Rattle.std.specs.Prelude.{◌≡◌, []};

use super::*;
use std::process::Abort;
use std::test::Fail;
use xv_bus::{Access, Device, NoMem, Outcome, Width};
use xv_vserial::InputFull;

/// What is done to a UART, and what is seen of it.
#[derive(Clone, Copy)]
enum Step {
    /// An access at an offset, and what it comes to.
    On(u64, Access, Outcome),
    /// Bytes of input.
    Come(&'static [u8]),
}

use Step::{Come, On};

/// A read of one byte at an offset, and what it gives.
macro_rules! load {
    ($at:expr, $value:expr) => {
        On($at, Access::Load(Width::W1), Outcome::Value($value))
    };
}

/// A write of one byte at an offset.
macro_rules! store {
    ($at:expr, $value:expr) => {
        On($at, Access::Store(Width::W1, $value), Outcome::Done)
    };
}

fn run(rt: &impl Abort, uart: &mut Uart, steps: &[Step]) {
    for step in steps {
        match *step {
            On(at, access, outcome) => {
                assert!(rt; access.fits());
                assert_eq!(rt;
                    uart.access(at, access, &mut NoMem),
                    outcome,
                    "{at} {access:?}"
                );
            }
            Come(bytes) => assert!(rt; uart.input(bytes).is_ok()),
        }
    }
}

// interrupts by their order, FIFOs on, the divisor, loop back with an overrun
const INTERRUPTS: [Step; 60] = [
    load!(5, 0x60),
    load!(2, 0x01),
    store!(2, 0xC1),
    load!(2, 0xC1),
    store!(1, 0x01),
    Come(&[
        0, 1, 2, 3, 4, 5, 6, 7, 8, 9, 10, 11, 12, 13, 14, 15, 16, 17, 18, 19,
    ]),
    load!(2, 0xC4),
    load!(0, 0),
    load!(0, 1),
    load!(0, 2),
    load!(0, 3),
    load!(0, 4),
    load!(0, 5),
    load!(0, 6),
    load!(2, 0xCC),
    store!(1, 0x03),
    load!(2, 0xCC),
    load!(0, 7),
    load!(0, 8),
    load!(0, 9),
    load!(0, 10),
    load!(0, 11),
    load!(0, 12),
    load!(0, 13),
    load!(0, 14),
    load!(0, 15),
    load!(0, 16),
    load!(0, 17),
    load!(0, 18),
    load!(0, 19),
    load!(2, 0xC2),
    load!(2, 0xC1),
    store!(3, 0x80),
    store!(0, 0x0D),
    load!(0, 0x0D),
    store!(3, 0x03),
    load!(0, 0),
    store!(4, 0x12),
    load!(6, 0x1A),
    load!(6, 0x10),
    store!(0, 0x55),
    store!(0, 0x55),
    store!(0, 0x55),
    store!(0, 0x55),
    store!(0, 0x55),
    store!(0, 0x55),
    store!(0, 0x55),
    store!(0, 0x55),
    store!(0, 0x55),
    store!(0, 0x55),
    store!(0, 0x55),
    store!(0, 0x55),
    store!(0, 0x55),
    store!(0, 0x55),
    store!(0, 0x55),
    store!(0, 0x55),
    store!(0, 0x55),
    load!(5, 0x63),
    load!(5, 0x61),
    load!(0, 0x55),
];

// FIFOs off: a byte is held, and one that comes over it, by loop back, replaces it
const WITHOUT_FIFOS: [Step; 14] = [
    Come(&[0x41, 0x42]),
    store!(1, 0x05),
    load!(2, 0x04),
    load!(5, 0x61),
    store!(4, 0x10),
    store!(0, 0x55),
    load!(2, 0x06),
    load!(5, 0x63),
    load!(2, 0x04),
    load!(0, 0x55),
    load!(5, 0x60),
    store!(4, 0x00),
    load!(0, 0x42),
    load!(0, 0x00),
];

// trigger levels 1, 4, 8 and 14; what empties the FIFO, and what doesn't
const TRIGGERS: [Step; 25] = [
    store!(1, 0x01),
    store!(2, 0x41),
    Come(&[1, 2, 3]),
    load!(2, 0xCC),
    Come(&[4]),
    load!(2, 0xC4),
    store!(2, 0x81),
    load!(2, 0xCC),
    Come(&[5, 6, 7, 8]),
    load!(2, 0xC4),
    store!(2, 0xC1),
    load!(2, 0xCC),
    Come(&[9, 10, 11, 12, 13, 14]),
    load!(2, 0xC4),
    store!(2, 0x01),
    load!(2, 0xC4),
    store!(2, 0x85),
    load!(2, 0xC4),
    store!(2, 0x83),
    load!(5, 0x60),
    Come(&[1, 2, 3, 4, 5, 6, 7]),
    load!(2, 0xCC),
    store!(2, 0x40),
    load!(5, 0x60),
    load!(2, 0x01),
];

// the empty transmitter: due where it is enabled anew, read once, due again after a byte is sent
const TRANSMITTER: [Step; 20] = [
    store!(0, 0x55),
    load!(2, 0x01),
    store!(1, 0x02),
    load!(2, 0x02),
    load!(2, 0x01),
    store!(1, 0x02),
    load!(2, 0x01),
    store!(1, 0x00),
    store!(1, 0xFF),
    load!(1, 0x0F),
    load!(2, 0x02),
    load!(2, 0x01),
    store!(0, 0x55),
    load!(2, 0x02),
    store!(3, 0x80),
    store!(1, 0xA5),
    load!(1, 0xA5),
    store!(3, 0x00),
    load!(1, 0x0F),
    load!(2, 0x01),
];

// the modem's inputs, by loop back its outputs, and what changed since the last read
const MODEM: [Step; 20] = [
    load!(6, 0xB0),
    store!(4, 0x10),
    load!(6, 0x0B),
    store!(4, 0x1F),
    load!(6, 0xFB),
    store!(4, 0x1B),
    load!(6, 0xB4),
    store!(4, 0x1F),
    load!(6, 0xF0),
    store!(4, 0x0F),
    load!(6, 0xB4),
    store!(1, 0x08),
    load!(2, 0x01),
    store!(4, 0xF0),
    load!(4, 0x10),
    load!(2, 0x00),
    load!(6, 0x0B),
    load!(2, 0x01),
    store!(5, 0xFF),
    load!(5, 0x60),
];

// registers 4 bytes apart; where none is, a read gives 0 and a write does nothing
const SPACED: [Step; 11] = [
    store!(0x1C, 0x77),
    load!(0x1C, 0x77),
    store!(7, 0x11),
    store!(0x1D, 0x22),
    store!(0x20, 0x33),
    load!(0x1C, 0x77),
    load!(7, 0),
    load!(0x1E, 0),
    load!(0x20, 0),
    store!(0x0C, 0x1B),
    load!(0x0C, 0x1B),
];

// accesses that are refused, at a register whose read would change it
const WIDTHS: [Step; 10] = [
    store!(1, 0x01),
    Come(&[0x41]),
    On(0, Access::Load(Width::W2), Outcome::Refused),
    On(0, Access::Load(Width::W4), Outcome::Refused),
    On(0, Access::Load(Width::W8), Outcome::Refused),
    On(0, Access::Store(Width::W2, 1), Outcome::Refused),
    On(0, Access::Store(Width::W4, 1), Outcome::Refused),
    On(0, Access::Store(Width::W8, 1), Outcome::Refused),
    load!(2, 0x04),
    load!(0, 0x41),
];

#[test]
fn rows(rt: HostRuntime) -> Result<(), Fail> {
    for (shift, steps) in [
        (0, INTERRUPTS.as_slice()),
        (0, WITHOUT_FIFOS.as_slice()),
        (0, TRIGGERS.as_slice()),
        (0, TRANSMITTER.as_slice()),
        (0, MODEM.as_slice()),
        (0, WIDTHS.as_slice()),
        (2, SPACED.as_slice()),
    ] {
        assert!(rt; shift <= 2);
        let mut uart = Uart::new(rt.alloc(), shift)?;
        let fresh = uart.state();
        run(&rt, &mut uart, steps);
        let state = uart.state();
        uart.reset();
        let seen = (uart.line(), uart.state());
        uart.put_state(&state);
        assert_eq!(rt; (seen, uart.state()), ((false, fresh), state));
    }
    Ok(())
}

// how many bytes of input come, and what is answered; the first goes to the receive register
const INPUTS: [(usize, Result<(), InputFull>); 4] = [
    (4097, Err(InputFull { free: 4096 })),
    (4096, Ok(())),
    (1, Ok(())),
    (1, Err(InputFull { free: 0 })),
];

/// Empties what is kept.
fn dump(uart: &mut Uart)
    ensures { uart.new ≡
        record uart.old { serial = record uart.old.serial { kept = []; lost = 0 } } }
{
    uart.serial().clear_kept();
}

// Output is kept through a reset; of more than 65,536 bytes the oldest are dropped and counted.
#[test]
fn queues(rt: HostRuntime) -> Result<(), Fail> {
    let bytes = [0x41; 4097];
    let mut uart = Uart::new(rt.alloc(), 0)?;
    for (len, answer) in INPUTS {
        assert!(rt; len <= 4097);
        assert_eq!(rt; uart.input(&bytes[..len]), answer, "{len}");
    }
    for k in 0..65537u64 {
        let _ = uart.access(0, Access::Store(Width::W1, k % 256), &mut NoMem);
    }
    uart.reset();
    let port = uart.port();
    let seen = (port.queue_len(), port.lost(), port.kept_len());
    assert_eq!(rt; seen, (0, 1, 65536));
    let ends = (port.kept_at(0), port.kept_at(65535));
    assert_eq!(rt; ends, (Some(1), Some(0)));
    dump(&mut uart);
    assert_eq!(rt; uart.port().kept_len(), 0);
    Ok(())
}
