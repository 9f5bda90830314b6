//! Guests of a few regions, mapped, looked at and unmapped.
ghost use Rattle.std.specs.Prelude.{◌≡◌, ◌<◌, IsTrue};
ghost use Rattle.xv_pte.specs.GStage.{HasTables};
ghost use Rattle.xv_region.specs.Rules.{are_sound};

use crate::{audit, map, unmap_all};
use std::alloc::Global;
use std::marker::Brand;
use std::sync::ledger::{Blank, Ledger};
use std::test::Fail;
use xv_base::{DevName, Span, dev_name_of};
use xv_mem::{HostMem, Steps};
use xv_pool::Pool;
use xv_pte::{Leaf, walk};
use xv_region::{Kind, Region, RegionMap};

/// The pool's frames are those from the 64th on, and the reserved area is behind them.
const FIRST: u32 = 64;

const POOL: u32 = 4032;

const AREA: Span = Span {
    start: 0x100_0000,
    len: 0x1_0000,
};

/// Frames of the whole memory.
const FRAMES: u32 = 4112;

const ROOT: u8 = 3;

/// An address, and where it leads: to a place in a frame, and whether it is writable.
type Row = (u64, Option<(u64, bool)>);

/// What a guest came to: frames needed, pages led right, the first row that leads elsewhere, and
/// how many pages are led right once all is unmapped.
type Outcome = (u64, u64, Option<u64>, u64);

fn mapped<L: Ledger>(
    alloc: Global,
    regions: &[Region],
    frames: u32,
    rows: &[Row],
    blank: Blank,
) -> Result<Outcome, Fail>
    requires sound { IsTrue (are_sound regions.now) }
    requires frames { frames ≡ 4112 }
    requires name { blank.name ≡ L.name }
    requires parts { blank.parts ≡ L.parts }
    requires some { 0 < blank.parts }
{
    let guest = RegionMap::build(alloc, regions, AREA)?;
    let need = guest.need();
    let mut pool = Pool::new(alloc, FIRST, POOL, AREA)?;
    let mut list = Vec::with_capacity(alloc, need as usize)?;
    pool.take_n(need, &mut list)?;
    if list.len() as u64 != need {
        return Ok((need, 0, None, 0));
    }
    let mut memory = HostMem::zeroed(alloc, frames)?;
    let mut steps = Steps::<L>::open(blank);
    map(&mut memory, ROOT, &guest, &list, &mut steps);
    let right = audit(&memory, ROOT, &guest, &list, &mut steps);
    let wrong = wrong_row(&memory, rows, &mut steps);
    unmap_all(&mut memory, ROOT, &list);
    let led = audit(&memory, ROOT, &guest, &list, &mut steps);
    Ok((need, right, wrong, led))
}

/// The first row whose address leads elsewhere.
fn wrong_row<L: Ledger>(memory: &HostMem, rows: &[Row], steps: &mut Steps<L>) -> Option<u64>
    requires { HasTables memory.now 3 }
{
    for (gpa, to) in rows {
        let leaf = to.map(|(host, writable)| Leaf { host, writable });
        if walk(memory, ROOT, *gpa, steps) != leaf {
            return Some(*gpa);
        }
    }
    None
}

fn region(name: DevName, base: u64, size: u64, kind: Kind) -> Region
    ensures { result ≡ record { name = name; base = base; size = size; kind = kind } }
{
    Region {
        name,
        base,
        size,
        kind,
    }
}

/// A page of RAM, two of ROM, the ROM again, a reserved page, and the last page of all.
const SMALL: [Row; 14] = [
    (0x7FFF_F000, None),
    (0x8000_0123, Some((0x4_0123, true))),
    (0x8000_1000, None),
    (0x0FFF, None),
    (0x1004, Some((0x4_1004, false))),
    (0x2FFF, Some((0x4_2FFF, false))),
    (0x3000, None),
    (0x9000_0000, Some((0x4_1000, false))),
    (0x9000_1008, Some((0x4_2008, false))),
    (0x9000_2000, None),
    (0xA000_0010, Some((0x100_0010, true))),
    (0xA000_1000, None),
    (0x1FF_FFFF_F008, Some((0x4_3008, true))),
    (0x200_0000_0000, None),
];

/// 513 pages across a bound of 1 GiB.
const ACROSS: [Row; 6] = [
    (0xBFFF_E000, None),
    (0xBFFF_F000, Some((0x4_0000, true))),
    (0xC000_0000, Some((0x4_1000, true))),
    (0xC01F_E000, Some((0x23_F000, true))),
    (0xC01F_F008, Some((0x24_0008, true))),
    (0xC020_0000, None),
];

/// 8 MiB of RAM and 64 KiB of ROM.
const USUAL: [Row; 8] = [
    (0x8000_0000, Some((0x4_0000, true))),
    (0x801F_F000, Some((0x23_F000, true))),
    (0x8020_0000, Some((0x24_0000, true))),
    (0x807F_FFFF, Some((0x83_FFFF, true))),
    (0x8080_0000, None),
    (0x0000, Some((0x84_0000, false))),
    (0xFFFF, Some((0x84_FFFF, false))),
    (0x1_0000, None),
];

const NOWHERE: [Row; 2] = [(0, None), (0x8000_0000, None)];

#[tactic(auto, unfolding(xv_region::specs::Rules::are_sound))]
fn small<L: Ledger>(
    alloc: Global,
    name: DevName,
    frames: u32,
    blank: Blank,
) -> Result<Outcome, Fail>
    requires frames { frames ≡ 4112 }
    requires name { blank.name ≡ L.name }
    requires parts { blank.parts ≡ L.parts }
    requires some { 0 < blank.parts }
{
    let regions = [
        region(name, 0x8000_0000, 0x1000, Kind::Ram),
        region(name, 0x1000, 0x2000, Kind::Rom),
        region(name, 0x9000_0000, 0x2000, Kind::Alias { target: 0x1000 }),
        region(
            name,
            0xA000_0000,
            0x1000,
            Kind::Reserved { host: 0x100_0000 },
        ),
        region(name, 0x1FF_FFFF_F000, 0x1000, Kind::Ram),
    ];
    mapped::<L>(alloc, &regions, frames, &SMALL, blank)
}

#[tactic(auto, unfolding(xv_region::specs::Rules::are_sound))]
fn across<L: Ledger>(
    alloc: Global,
    name: DevName,
    frames: u32,
    blank: Blank,
) -> Result<Outcome, Fail>
    requires frames { frames ≡ 4112 }
    requires name { blank.name ≡ L.name }
    requires parts { blank.parts ≡ L.parts }
    requires some { 0 < blank.parts }
{
    let regions = [region(name, 0xBFFF_F000, 0x20_1000, Kind::Ram)];
    mapped::<L>(alloc, &regions, frames, &ACROSS, blank)
}

#[tactic(auto, unfolding(xv_region::specs::Rules::are_sound))]
fn usual<L: Ledger>(
    alloc: Global,
    name: DevName,
    frames: u32,
    blank: Blank,
) -> Result<Outcome, Fail>
    requires frames { frames ≡ 4112 }
    requires name { blank.name ≡ L.name }
    requires parts { blank.parts ≡ L.parts }
    requires some { 0 < blank.parts }
{
    let regions = [
        region(name, 0x8000_0000, 0x80_0000, Kind::Ram),
        region(name, 0, 0x1_0000, Kind::Rom),
    ];
    mapped::<L>(alloc, &regions, frames, &USUAL, blank)
}

#[tactic(auto, unfolding(xv_region::specs::Rules::are_sound))]
fn empty<L: Ledger>(alloc: Global, frames: u32, blank: Blank) -> Result<Outcome, Fail>
    requires frames { frames ≡ 4112 }
    requires name { blank.name ≡ L.name }
    requires parts { blank.parts ≡ L.parts }
    requires some { 0 < blank.parts }
{
    mapped::<L>(alloc, &[], frames, &NOWHERE, blank)
}

#[test]
fn guests_of_a_few_regions(rt: HostRuntime) -> Result<(), Fail> {
    let Some(name) = dev_name_of(b"memory") else {
        return Ok(());
    };
    let alloc = rt.alloc();
    let first = small::<Brand>(alloc, name, FRAMES, Blank::new(1))?;
    assert_eq!(rt; first, (12, 7, None, 0));
    let second = across::<Brand>(alloc, name, FRAMES, Blank::new(1))?;
    assert_eq!(rt; second, (517, 513, None, 0));
    let third = usual::<Brand>(alloc, name, FRAMES, Blank::new(1))?;
    assert_eq!(rt; third, (2071, 2064, None, 0));
    let last = empty::<Brand>(alloc, FRAMES, Blank::new(1))?;
    assert_eq!(rt; last, (0, 0, None, 0));
    Ok(())
}
