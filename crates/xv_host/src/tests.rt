ghost use Rattle.std.specs.Prelude.{◌≡◌, ◌<◌, ◌≤◌, ℕ, true, IfOk, IsSome};
ghost use Rattle.xv_region.specs.Plan.{flat};
ghost use Rattle.xv_host.specs.Places.{guest_at};

use super::*;
use std::alloc::Global;
use std::marker::{Brand, Model};
use std::process::Abort;
use std::sync::ledger::{Blank, Ledger};
use std::test::Fail;
use xv_base::{GuestKey, NoMemory, VcpuNo, dev_name_of};
use xv_hart::Machine;
use xv_mem::Steps;
use xv_pool::PoolFault;
use xv_region::{Kind, Plan, Region, VcpuPlan};

// Where a flat guest's memory begins.
const BASE: u64 = 0x8000_0000;

// addi x5, x5, 1 and a jump back to it
const COUNTS: [u8; 8] = [0x93, 0x82, 0x12, 0x00, 0x6f, 0xf0, 0xdf, 0xff];

// What is seen of a guest: digest, pc and x5 of its VCPU, pages that are led right.
type Seen = ([u8; 32], u64, u64, u64);

// SHA-256 of 4,096 zeros, and a guest at its birth.
const NEW: Seen = (
    [
        0xad, 0x7f, 0xac, 0xb2, 0x58, 0x6f, 0xc6, 0xe9, 0x66, 0xc0, 0x04, 0xd7, 0xd1, 0xd1, 0x6b,
        0x02, 0x4f, 0x58, 0x05, 0xff, 0x7c, 0xb4, 0x7c, 0x7a, 0x85, 0xda, 0xbd, 0x8b, 0x48, 0x89,
        0x2c, 0xa7,
    ],
    BASE,
    0,
    1,
);

// A host over its machine.
#[derive(Drop)]
struct World {
    machine: Machine,
    host: Host,
}

impl Model for World {
    ghost use Rattle.std.specs.Prelude.{ℕ, ◌≡◌};
    ghost use Rattle.xv_hart.specs.Machine.{IsFit};
    ghost use Rattle.xv_host.specs.Host.{IsHosted};

    ghost Value = { ℕ };

    ghost view = { λ world. 0 };

    ghost invariant = { λ world. (IsHosted world.host world.machine.mem)
        × ((world.machine.area ≡ world.host.pool.area) × IsFit world.machine) };
}

// A flat guest of one page.
fn small_plan(alloc: Global) -> Result<Plan, NoMemory>
    ensures { IfOk result (λ plan. plan ≡ flat 1) }
{
    let Some(name) = dev_name_of(b"ram") else {
        return Err(NoMemory);
    };
    let ram = Region {
        name,
        base: BASE,
        size: 0x1000,
        kind: Kind::Ram,
    };
    let start = VcpuPlan {
        start: BASE,
        priority: 3,
    };
    Ok(Plan {
        regions: vec![in alloc; ram]?,
        vcpus: vec![in alloc; start]?,
    })
}

fn is_live(host: &Host, key: GuestKey) -> bool
    ensures { result ≡ true → IsSome (guest_at host.now.guests key) }
{
    host.guests.get(key).is_some()
}

impl World {
    // so many MiB without a reserved part, and no guest
    fn new(alloc: Global, mib: u32) -> Result<World, NoMemory>
        requires least { 8 ≤ mib }
        requires most { mib ≤ 512 }
    {
        let mut machine = Machine::bare();
        machine.fit(alloc, mib, 0)?;
        let host = Host::new(alloc, &machine)?;
        Ok(World { machine, host })
    }

    fn admit(&mut self, alloc: Global) -> Result<Result<GuestKey, Admit>, NoMemory> {
        let plan = small_plan(alloc)?;
        Ok(self.host.admit(alloc, &mut self.machine, plan, 0))
    }

    fn release(&mut self, key: GuestKey) {
        if is_live(&self.host, key) {
            self.host.release(&mut self.machine, key);
        }
    }

    fn seen(&self, key: GuestKey) -> Option<Seen> {
        if !is_live(&self.host, key) {
            return None;
        }
        let guest = self.host.guest(key);
        if guest.plan().vcpus.is_empty() {
            return None;
        }
        let view = guest.view(VcpuNo(0));
        let digest = self.host.digest(&self.machine, key);
        let pages = self.host.audit(&self.machine, key);
        Some((digest, view.pc, view.x[5], pages))
    }

    // Puts the counting loop into a guest and starts it.
    fn start(&mut self, key: GuestKey) {
        if is_live(&self.host, key) {
            let _stored = self.host.store(&mut self.machine, key, BASE, &COUNTS);
        }
        if is_live(&self.host, key) {
            let _changed = self.host.change(key, Change::Kick);
        }
    }

    fn turn<L: Ledger>(&mut self, key: GuestKey, blank: Blank) -> Option<TurnEnd>
        requires name { blank.name ≡ L.name }
        requires parts { blank.parts ≡ L.parts }
        requires part { 0 < blank.parts }
    {
        let mut steps = Steps::<L>::open(blank);
        let first = VcpuNo(0);
        if !is_live(&self.host, key) || self.host.guest(key).plan().vcpus.is_empty() {
            return None;
        }
        if !self.host.ready(key, first, 0) || self.machine.hart.steps_taken() >= 1 << 62 {
            return None;
        }
        Some(self.host.turn(&mut self.machine, key, first, 0, &mut steps))
    }

    // A guest runs one turn, and goes. The answer is how the turn ended, and what was seen of it.
    fn run_and_release(&mut self, key: GuestKey) -> (Option<TurnEnd>, Option<Seen>) {
        self.start(key);
        let end = self.turn::<Brand>(key, Blank::new(1));
        let seen = self.seen(key);
        self.release(key);
        (end, seen)
    }
}

// Admits guests, which get the least keys.
fn fill(rt: &impl Abort, alloc: Global, world: &mut World, guests: u8) -> Result<(), NoMemory>
    requires { guests ≤ 16 }
{
    for key in 0..guests {
        assert_eq!(rt; world.admit(alloc)?, Ok(GuestKey(key)));
    }
    Ok(())
}

// The first guests are as at their birth, but for one that is gone.
fn see_new(rt: &impl Abort, world: &World, guests: u8, gone: Option<u8>)
    requires { guests ≤ 16 }
{
    for key in 0..guests {
        let seen = if gone == Some(key) { None } else { Some(NEW) };
        assert_eq!(rt; world.seen(GuestKey(key)), seen, "{key}");
    }
}

// Of these guests one runs for a turn, and goes.
fn leave(rt: &impl Abort, world: &mut World, guests: u8, key: u8)
    requires guests { guests ≤ 16 }
    requires key { key < guests }
{
    let (end, seen) = world.run_and_release(GuestKey(key));
    assert_eq!(rt; end, Some(TurnEnd::Spent));
    assert_eq!(rt; seen.map(|s| (s.1, s.2, s.3)), Some((BASE, 500, 1)));
    see_new(rt, world, guests, Some(key));
}

// Where one of these guests runs and goes, and the next one gets its key.
fn one_of(
    rt: &impl Abort,
    alloc: Global,
    world: &mut World,
    guests: u8,
    key: u8,
) -> Result<(), NoMemory>
    requires guests { guests ≤ 16 }
    requires key { key < guests }
{
    fill(rt, alloc, world, guests)?;
    leave(rt, world, guests, key);
    assert_eq!(rt; world.admit(alloc)?, Ok(GuestKey(key)));
    see_new(rt, world, guests, None);
    Ok(())
}

// The same in a world of its own. A world is dropped where little else is: each way out is proved.
fn alone(rt: &impl Abort, alloc: Global, guests: u8, key: u8) -> Result<(), NoMemory>
    requires guests { guests ≤ 16 }
    requires key { key < guests }
{
    let mut world = World::new(alloc, 8)?;
    one_of(rt, alloc, &mut world, guests, key)
}

#[test]
fn a_guest_sees_nothing_of_another(rt: HostRuntime) -> Result<(), Fail> {
    alone(&rt, rt.alloc(), 2, 1)?;
    alone(&rt, rt.alloc(), 16, 5)?;
    Ok(())
}

#[test]
fn no_seventeenth_guest(rt: HostRuntime) -> Result<(), Fail> {
    let mut world = World::new(rt.alloc(), 8)?;
    fill(&rt, rt.alloc(), &mut world, 16)?;
    let none = Admit::Pool(PoolFault::NoRoot);
    assert_eq!(rt; world.admit(rt.alloc())?, Err(none));
    Ok(())
}
