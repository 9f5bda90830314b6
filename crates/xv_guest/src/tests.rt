ghost use Rattle.std.specs.Prelude.{◌≡◌, ◌≤◌, [], true, None, IfOk, IsTrue};
ghost use Rattle.xv_region.specs.Plan.{flat};
ghost use Rattle.xv_region.specs.Rules.{are_sound, first_fault};
ghost use Rattle.xv_gstage.specs.Own.{reserved_frames};
ghost use Rattle.xv_guest.specs.Devices.{IsUart, UartShape, shape_of_kind};
ghost use Rattle.xv_guest.specs.Frames.{reserved_ranges};
ghost use Rattle.xv_guest.specs.Guest.{held_of};
ghost use Rattle.xv_guest.specs.Held.{IsHeld};

use super::*;
use std::alloc::Global;
use std::process::Abort;
use std::test::Fail;
use xv_base::{DevName, GuestKey, NoMemory, Span, VcpuNo, dev_name_of};
use xv_bus::{Access, Ending, Outcome as Reached, Width};
use xv_mem::HostMem;
use xv_pool::Pool;
use xv_region::{DeviceKind, Kind, Plan, Region, VcpuPlan};

// behind 72 frames, and empty
const AREA: Span = Span {
    start: 0x4_8000,
    len: 0,
};

// RAM of two pages, in which the one VCPU starts
fn small_plan(alloc: Global) -> Result<Plan, NoMemory>
    ensures { IfOk result (λ plan. plan ≡ flat 2) }
{
    let Some(name) = dev_name_of(b"ram") else {
        return Err(NoMemory);
    };
    let ram = Region {
        name,
        base: 0x8000_0000,
        size: 0x2000,
        kind: Kind::Ram,
    };
    let start = VcpuPlan {
        start: 0x8000_0000,
        priority: 3,
    };
    Ok(Plan {
        regions: vec![in alloc; ram]?,
        vcpus: vec![in alloc; start]?,
    })
}

#[test]
fn a_guest_at_its_make_and_its_reset(rt: HostRuntime) -> Result<(), Fail> {
    let plan = small_plan(rt.alloc())?;
    let mut guest = Guest::make(rt.alloc(), plan, GuestKey(3), AREA)?;
    let first = VcpuNo(0);
    let mut view = guest.view(first);
    assert_eq!(rt; (view.pc, view.hart), (0x8000_0000, HartState::Stopped));
    view.x[10] = 7;
    view.pc = 0x8000_0004;
    guest.set_view(first, &view);
    guest.put(GuestState::Running, 5);
    let moved = guest.view(first);
    assert_eq!(rt; (moved.x[10], moved.pc), (7, 0x8000_0004));
    guest.reset();
    let back = guest.view(first);
    assert_eq!(rt; (back.x[10], back.pc), (0, 0x8000_0000));
    assert_eq!(rt; (guest.state(), guest.birth()), (GuestState::Reset, 5));
    assert_eq!(rt; (guest.map().need(), guest.frames().len()), (4, 0));
    Ok(())
}

// The root of a guest in a host where nobody has anything, how many of 8 frames are free while it
// lives, and how many afterwards.
fn taken_and_given_back(alloc: Global, frames: u32) -> Result<(u8, u64, u64), NoMemory>
    requires { 72 ≤ frames }
{
    let plan = small_plan(alloc)?;
    let mut guest = Guest::make(alloc, plan, GuestKey(0), AREA)?;
    let Ok(mut mem) = HostMem::zeroed(alloc, frames) else {
        return Err(NoMemory);
    };
    let mut pool = Pool::new(alloc, 64, 8, AREA)?;
    let Ok(()) = pool.test(guest.map().need(), &[]) else {
        return Err(NoMemory);
    };
    guest.take(&mut mem, &mut pool);
    let root = guest.root();
    let free = pool.free();
    guest.give(&mut mem, &mut pool);
    Ok((root, free, pool.free()))
}

#[test]
fn a_guest_takes_and_gives_back(rt: HostRuntime) -> Result<(), Fail> {
    assert_eq!(rt; taken_and_given_back(rt.alloc(), 72)?, (0, 4, 8));
    Ok(())
}

/// A digest; which stores were taken: over the end of a page, into a ROM, and with one byte outside
/// of the RAM; and what the alias shows then.
type Outcome = ([u8; 32], [bool; 3], Option<[u8; 2]>);

fn stored_and_shown(guest: &Guest, mem: &mut HostMem) -> Outcome
    requires { IsHeld mem.old (held_of guest.now) }
    ensures { IsHeld mem.new (held_of guest.now) }
{
    let digest = guest.digest(mem);
    let over = guest.store(mem, 0x8000_0ffe, b"page");
    let rom = guest.store(mem, 0x9000_0000, b"page");
    let outside = guest.store(mem, 0x8000_1ffd, b"page");
    let mut shown = [0; 2];
    let alias = guest.peek(mem, 0xa000_0000, &mut shown);
    let shown = if alias { Some(shown) } else { None };
    (digest, [over, rom, outside], shown)
}

// A guest of these regions, of which none is reserved, and the memory of a host in which nobody
// else has anything.
fn taken(alloc: Global, regions: &[Region], frames: u32) -> Result<(Guest, HostMem), NoMemory>
    requires frames { 72 ≤ frames }
    requires sound { IsTrue (are_sound regions.now) }
    requires faultless { first_fault (record { start = 0x4_8000; len = 0 }) regions.now ≡ None }
    requires ranges { reserved_ranges regions.now ≡ [] }
    requires reserved { reserved_frames regions.now ≡ [] }
    ensures { IfOk result (λ both. IsHeld both.1 (held_of both.0)) }
{
    let start = VcpuPlan {
        start: 0x8000_0000,
        priority: 3,
    };
    let plan = Plan {
        regions: Vec::from_slice(alloc, regions)?,
        vcpus: vec![in alloc; start]?,
    };
    let mut guest = Guest::make(alloc, plan, GuestKey(0), AREA)?;
    let Ok(mut mem) = HostMem::zeroed(alloc, frames) else {
        return Err(NoMemory);
    };
    let mut pool = Pool::new(alloc, 64, 8, AREA)?;
    let Ok(()) = pool.test(guest.map().need(), &[]) else {
        return Err(NoMemory);
    };
    guest.take(&mut mem, &mut pool);
    Ok((guest, mem))
}

fn region(name: DevName, base: u64, size: u64, kind: Kind) -> Region
    ensures { result ≡ record { name = name; base = base; size = size; kind = kind } }
{
    Region {
        name,
        base,
        size,
        kind,
    }
}

/// What is done to a guest's devices, and what is seen of them.
#[derive(Clone, Copy)]
enum Step {
    /// An access to the device of a region, and what it comes to.
    Reach(u8, u64, Access, Reached),
    /// Bytes that come in at a UART.
    Input(u8, &'static [u8]),
    /// The line of the first VCPU.
    External(bool),
    Reset,
}

use Access::{Load, Store};
use Reached::{Done, Halt, Refused, Value};
use Step::{External, Input, Reach, Reset};

fn is_uart(guest: &Guest, region: u8) -> bool
    ensures { result ≡ true → IsUart guest.now.devices region }
{
    let regions: &[Region] = &guest.plan().regions;
    let number = region as usize;
    number < regions.len() && uart_kind(regions[number].kind)
}

fn uart_kind(kind: Kind) -> bool
    ensures { result ≡ true → shape_of_kind kind ≡ UartShape }
{
    matches!(kind, Kind::Device(DeviceKind::Uart { shift: _, irq: _ }))
}

fn run(rt: &impl Abort, guest: &mut Guest, mem: &mut HostMem, steps: &[Step])
    requires { IsHeld mem.old (held_of guest.old) }
{
    for step in steps {
        take(rt, guest, mem, *step);
    }
}

fn take(rt: &impl Abort, guest: &mut Guest, mem: &mut HostMem, step: Step)
    requires { IsHeld mem.old (held_of guest.old) }
    ensures { IsHeld mem.new (held_of guest.new) }
{
    match step {
        Reach(region, at, access, outcome) => {
            let regions = guest.plan().regions.len();
            assert!(rt; (region as usize) < regions);
            assert!(rt; access.fits());
            let reached = guest.access(mem, region, at, access);
            assert_eq!(rt; reached, outcome, "{region} {at:#x}");
        }
        Input(region, bytes) => {
            assert!(rt; is_uart(guest, region));
            assert_eq!(rt; guest.input(region, bytes), Ok(()));
        }
        External(is_up) => assert_eq!(rt; guest.external(VcpuNo(0)), is_up),
        Reset => guest.reset(),
    }
}

// RAM has no device; a byte that comes in at the UART raises its line, and by the PLIC that of the
// VCPU until it is claimed; a reset forgets it
const STEPS: [Step; 17] = [
    Reach(0, 0, Load(Width::W1), Refused),
    Reach(4, 0x28, Store(Width::W4, 3), Done),
    Reach(4, 0x2000, Store(Width::W4, 0x400), Done),
    Reach(3, 1, Store(Width::W1, 1), Done),
    External(false),
    Input(3, b"x"),
    External(true),
    Reach(4, 0x20_0004, Load(Width::W4), Value(10)),
    External(false),
    Reach(3, 0, Load(Width::W1), Value(0x78)),
    Reach(4, 0x20_0004, Store(Width::W4, 10), Done),
    Input(3, b"y"),
    External(true),
    Reach(5, 0, Store(Width::W4, 0x5555), Halt(Ending::Pass)),
    Reset,
    External(false),
    Reach(3, 1, Load(Width::W1), Value(0)),
];

// SHA-256 of 12,288 zeros
const ZEROS: [u8; 32] = [
    0xf3, 0xcc, 0x10, 0x31, 0x36, 0x42, 0x3a, 0x57, 0x97, 0x57, 0x50, 0x90, 0x7e, 0xbc, 0x1d, 0x36,
    0x7e, 0x29, 0x85, 0xac, 0x63, 0x38, 0x97, 0x6d, 0x4d, 0x5a, 0x43, 0x9f, 0x50, 0x32, 0x3f, 0x4a,
];

#[test]
fn a_guest_of_memory_and_devices(rt: HostRuntime) -> Result<(), Fail> {
    let Some(name) = dev_name_of(b"ram") else {
        return Err(Fail::from("the name"));
    };
    let alias = Kind::Alias {
        target: 0x8000_1000,
    };
    let uart = Kind::Device(DeviceKind::Uart { shift: 0, irq: 10 });
    let regions = [
        region(name, 0x8000_0000, 0x2000, Kind::Ram),
        region(name, 0x9000_0000, 0x1000, Kind::Rom),
        region(name, 0xa000_0000, 0x1000, alias),
        region(name, 0x1000_0000, 0x8, uart),
        region(name, 0xc00_0000, 0x400_0000, Kind::Device(DeviceKind::Plic)),
        region(name, 0x10_0000, 0x1000, Kind::Device(DeviceKind::Finisher)),
    ];
    let (mut guest, mut mem) = taken(rt.alloc(), &regions, 72)?;
    let outcome = stored_and_shown(&guest, &mut mem);
    assert_eq!(rt; outcome, (ZEROS, [true, true, false], Some(*b"ge")));
    run(&rt, &mut guest, &mut mem, &STEPS);
    assert!(rt; is_uart(&guest, 3) && !is_uart(&guest, 4) && guest.plic().is_some());
    guest.uart_mut(3).serial().clear_kept();
    assert_eq!(rt; guest.uart(3).state().ier, 0);
    Ok(())
}
