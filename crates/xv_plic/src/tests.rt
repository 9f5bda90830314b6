//! Worked rows, every register, widths, and contexts that aren't there.
ghost use Rattle.std.specs.Prelude.{◌≡◌, ◌≤◌, false};
ghost use Rattle.xv_base.specs.Bits.{has_bit};

use super::*;
use std::process::Abort;
use std::test::Fail;
use xv_bus::{Access, Device, NoMem, Outcome, Width};

/// What is done to a controller, and what is seen of it.
#[derive(Clone, Copy)]
enum Step {
    /// A read at an offset, and what it gives.
    Read(u64, u64),
    Write(u64, u32),
    /// The gateways' step with these lines up; bit 0 isn't used.
    Lift(u64),
    /// The line of a context.
    Line(u8, bool),
}

use Step::{Lift, Line, Read, Write};

fn lines_of(lines: u64) -> u64
    ensures { has_bit 0 result ≡ false }
{
    lines / 2 * 2
}

#[tactic(auto, using(xv_bus::proofs::PlicLemmas::contexts_stay))]
fn run(rt: &impl Abort, plic: &mut Plic, contexts: u8, steps: &[Step])
    requires { contexts ≤ plic.old.contexts }
    ensures { plic.new.contexts ≡ plic.old.contexts }
{
    for step in steps {
        match *step {
            Read(at, value) => {
                let outcome = plic.access(at, Access::Load(Width::W4), &mut NoMem);
                assert_eq!(rt; outcome, Outcome::Value(value), "{at:#x}");
            }
            Write(at, value) => {
                let outcome = plic.access(at, Access::Store(Width::W4, value as u64), &mut NoMem);
                assert_eq!(rt; outcome, Outcome::Done, "{at:#x}");
            }
            Lift(lines) => plic.lift(lines_of(lines)),
            Line(context, is_up) => {
                assert!(rt; context < contexts);
                assert_eq!(rt; plic.context_line(context), is_up, "{context}");
            }
        }
    }
}

// of two sources of one priority the lesser is claimed first, whatever the threshold; an id that
// isn't in service, or of which only the low bits are, completes nothing
const CLAIMS: [Step; 26] = [
    Write(0x28, 11),
    Read(0x28, 3),
    Write(0x2C, 3),
    Write(0x2000, 0xC00),
    Write(0x20_0000, 3),
    Lift(0xC00),
    Read(0x1000, 0xC00),
    Line(0, false),
    Read(0x20_0004, 10),
    Read(0x20_0004, 11),
    Read(0x20_0004, 0),
    Write(0x20_0000, 0),
    Write(0x20_0004, 10),
    Lift(0xC00),
    Read(0x1000, 0x400),
    Line(0, true),
    Write(0x20_0004, 12),
    Read(0x1000, 0x400),
    Line(0, true),
    Write(0x20_0004, 64 + 11),
    Lift(0xC00),
    Read(0x1000, 0x400),
    Lift(0),
    Read(0x1000, 0x400),
    Write(0x20_0004, 11),
    Read(0x20_0004, 10),
];

// the greatest priority first, and a source of priority 0 never; high halves; a context that isn't
// there reads 0, and completes nothing
const CONTEXTS: [Step; 36] = [
    Write(0x14, 1),
    Write(0xFC, 7),
    Write(0x2084, 0x8000_0001),
    Write(0x2080, 0x0000_0061),
    Read(0x2084, 0x8000_0001),
    Read(0x2080, 0x60),
    Lift(0x8000_0001_0000_0060),
    Read(0x1004, 0x8000_0001),
    Line(0, false),
    Line(1, true),
    Write(0x20_1000, 7),
    Line(1, false),
    Write(0x20_1000, 0xFE),
    Read(0x20_1000, 6),
    Line(1, true),
    Read(0x20_1004, 63),
    Read(0x20_1004, 5),
    Read(0x20_1004, 0),
    Write(0x20_0004, 63),
    Write(0x20_2004, 63),
    Lift(0x8000_0000_0000_0000),
    Read(0x1004, 0x0000_0001),
    Write(0x20_1004, 63),
    Lift(0x8000_0000_0000_0000),
    Read(0x1004, 0x8000_0001),
    Write(0x2100, 0xFE),
    Read(0x2100, 0),
    Write(0x20_2000, 7),
    Read(0x20_2000, 0),
    Read(0x20_2004, 0),
    Write(0x0, 7),
    Read(0x0, 0),
    Write(0x100, 7),
    Read(0x100, 0),
    Write(0x1004, 0),
    Read(0x1004, 0x8000_0001),
];

#[test]
#[tactic(auto, unfolding(xv_bus::specs::Plic::new_plic, xv_bus::specs::Plic::plic_reset))]
fn rows(rt: HostRuntime) {
    let mut plic = Plic::new(1);
    run(&rt, &mut plic, 1, &CLAIMS);
    let mut plic = Plic::new(2);
    run(&rt, &mut plic, 2, &CONTEXTS);
    assert!(rt; !plic.line());
    let state = plic.state();
    plic.reset();
    assert_eq!(rt; plic.state(), Plic::new(2).state());
    plic.put_state(&state);
    assert_eq!(rt; plic.state(), state);
    run(
        &rt,
        &mut plic,
        2,
        &[
            Read(0x1004, 0x8000_0001),
            Line(1, true),
            Read(0x20_1004, 63),
        ],
    );
}

// offset and access that are refused, and what they would do is not done
const REFUSED: [(u64, Access); 9] = [
    (0x4, Access::Load(Width::W1)),
    (0x4, Access::Load(Width::W2)),
    (0x4, Access::Load(Width::W8)),
    (0x6, Access::Load(Width::W4)),
    (0x4, Access::Store(Width::W1, 7)),
    (0x4, Access::Store(Width::W2, 7)),
    (0x4, Access::Store(Width::W8, 7)),
    (0x5, Access::Store(Width::W4, 7)),
    (0x20_0002, Access::Load(Width::W4)),
];

#[test]
fn registers(rt: HostRuntime) {
    let mut plic = Plic::new(8);
    let fresh = plic.state();
    for (at, access) in REFUSED {
        assert!(rt; access.fits());
        assert_eq!(rt;
            plic.access(at, access, &mut NoMem),
            Outcome::Refused,
            "{at} {access:?}"
        );
        assert_eq!(rt; plic.state(), fresh, "{at} {access:?}");
    }
    for id in 1..64u64 {
        let at = 4 * id;
        let _ = plic.access(at, Access::Store(Width::W4, 0xF8 + id % 8), &mut NoMem);
        let shown = plic.access(at, Access::Load(Width::W4), &mut NoMem);
        assert_eq!(rt; shown, Outcome::Value(id % 8), "{id}");
    }
    for context in 0..8u64 {
        let (enables, threshold) = (0x2000 + 0x80 * context, 0x20_0000 + 0x1000 * context);
        for (at, value, kept) in [
            (enables, 0xFFFF_FFFF, 0xFFFF_FFFE),
            (enables + 4, 0x8000_0000 + context, 0x8000_0000 + context),
            (threshold, 0xFFFF_FFF8 + context, context),
        ] {
            assert!(rt; value < 1 << 32);
            let _ = plic.access(at, Access::Store(Width::W4, value), &mut NoMem);
            let shown = plic.access(at, Access::Load(Width::W4), &mut NoMem);
            assert_eq!(rt; shown, Outcome::Value(kept), "{at:#x}");
        }
    }
    assert_eq!(rt; plic.state().threshold, [0, 1, 2, 3, 4, 5, 6, 7]);
}
