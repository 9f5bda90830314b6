//! What a guest takes of its host.
ghost use Rattle.std.specs.Prelude.{◌≡◌, ℕ, ◌+◌, ◌<◌, ◌≤◌, ◌++◌, [], length, take, Ok};
ghost use Rattle.std.specs.Prelude.{vec_capacity};
ghost use Rattle.std.specs.List.{All, Contains};
ghost use Rattle.xv_base.specs.Range.{LiesIn};
ghost use Rattle.xv_pool.specs.Resources.{IsSound, tested};
ghost use Rattle.xv_region.specs.Need.{need};
ghost use Rattle.xv_pte.specs.GStage.{led, frame_bytes};
ghost use Rattle.xv_gstage.specs.Memory.{SameOutside, HasFrames, AreApart, AreZero, IsZeroRoot};
ghost use Rattle.xv_gstage.specs.Tidy.{IsTidy};
ghost use Rattle.xv_gstage.specs.Own.{own, page_frames, table_frames};
ghost use Rattle.xv_region.specs.Rules.{Accepted};
ghost use Rattle.xv_guest.specs.Frames.{reserved_ranges};
ghost use Rattle.xv_guest.specs.Held.{IsHeld, memory_of, zero_memory};
ghost use Rattle.xv_guest.specs.Take.{MayTake, least_root, pool_after};

use crate::ranges::take_ranges;
use std::marker::Brand;
use std::sync::ledger::{Blank, Ledger};
use xv_mem::{HostMem, Steps};
use xv_pool::Pool;
use xv_region::RegionMap;

/// Takes the least root, the frames that the regions need and their ranges, all of which can be
/// had, and fills the tables. The answer is the root.
pub(crate) fn take_all(
    mem: &mut HostMem,
    pool: &mut Pool,
    map: &RegionMap,
    frames: &mut Vec<u32>,
) -> u8
    requires none { frames.old.items ≡ [] }
    requires capacity { need map.now ≤ vec_capacity frames.old }
    requires may { MayTake mem.old pool.old map.now }

    ensures root { result ≡ least_root pool.old.roots }
    ensures frames { frames.new.items ≡ take (need map.now) pool.old.free }
    ensures capacity { vec_capacity frames.old ≤ vec_capacity frames.new }
    ensures pool { pool.new ≡ pool_after map.now pool.old }
    ensures sound { IsSound pool.new }
    ensures held { IsHeld mem.new
        (record { root = result; regions = map.now; frames = frames.new.items }) }
    ensures zeros { memory_of mem.new
        (record { root = result; regions = map.now; frames = frames.new.items })
        ≡ zero_memory map.now }
    ensures outside { SameOutside mem.old mem.new result
        (table_frames map.now frames.new.items) }
{
    let _free = pool.free();
    let root = take_numbers(pool, map, frames);
    fill_tables::<Brand>(mem, root, map, frames, Blank::new(1));
    root
}

/// Takes them of the pool alone.
fn take_numbers(pool: &mut Pool, map: &RegionMap, frames: &mut Vec<u32>) -> u8
    requires none { frames.old.items ≡ [] }
    requires capacity { need map.now ≤ vec_capacity frames.old }
    requires tested { tested pool.old (need map.now) (reserved_ranges map.now) ≡ Ok tt }
    requires area { All (λ range. LiesIn range pool.old.area) (reserved_ranges map.now) }
    requires room { length pool.old.held + length (reserved_ranges map.now) ≤ 512 }

    ensures root { result ≡ least_root pool.old.roots }
    ensures small { result < 16 }
    ensures frames { frames.new.items ≡ take (need map.now) pool.old.free }
    ensures capacity { vec_capacity frames.old ≤ vec_capacity frames.new }
    ensures pool { pool.new ≡ pool_after map.now pool.old }
    ensures sound { IsSound pool.new }
    ensures enough { need map.now ≤ length pool.old.free }
    ensures accepted { Accepted map.now }
{
    let regions = map.regions();
    let Ok(root) = pool.take_root() else {
        unreachable!("a root can be had");
    };
    let Ok(()) = pool.take_n(map.need(), frames) else {
        unreachable!("the frames can be had");
    };
    take_ranges(pool, regions);
    let _left = pool.free();
    root
}

/// Fills the tables. The accesses to host memory are counted in a ledger of their own.
fn fill_tables<L: Ledger>(
    mem: &mut HostMem,
    root: u8,
    map: &RegionMap,
    frames: &[u32],
    blank: Blank,
)
    requires name { blank.name ≡ L.name }
    requires parts { blank.parts ≡ L.parts }
    requires part { 0 < blank.parts }
    requires frames { HasFrames (length mem.old) root map.now frames.now }
    requires root { IsZeroRoot mem.old root }
    requires zeros { AreZero mem.old (table_frames map.now frames.now) }
    requires apart { AreApart root map.now frames.now }

    ensures led { (page : ℕ) → led mem.new root page ≡ own map.now frames.now page }
    ensures tidy { IsTidy mem.new root map.now frames.now }
    ensures pages { (frame : ℕ) → Contains (page_frames map.now frames.now) frame
        → frame_bytes mem.new frame ≡ frame_bytes mem.old frame }
    ensures outside { SameOutside mem.old mem.new root (table_frames map.now frames.now) }
{
    let mut steps = Steps::<L>::open(blank);
    xv_gstage::map(mem, root, map, frames, &mut steps);
}
