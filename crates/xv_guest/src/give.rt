//! What a guest gives back to its host.
ghost use Rattle.std.specs.Prelude.{◌≡◌, ℕ, ◌+◌, ◌<◌, ◌≤◌, true, false, Some, sum_by, slice_get};
ghost use Rattle.std.specs.Prelude.{slice_set};
ghost use Rattle.xv_base.specs.declared.keys.Span.{Span};
ghost use Rattle.xv_pool.specs.Resources.{IsSound};
ghost use Rattle.xv_gstage.specs.Own.{reserved_frames};
ghost use Rattle.xv_guest.specs.Frames.{IsInside, hits, reserved_ranges, root_frames};
ghost use Rattle.xv_guest.specs.Held.{holds, Within};
ghost use Rattle.xv_gstage.specs.Memory.{IsZero};

use crate::clear::clear_reserved;
use crate::ranges::give_ranges;
use xv_gstage::unmap_all;
use xv_mem::HostMem;
use xv_pool::Pool;
use xv_region::RegionMap;

/// Makes all frames of a root, of the list and of the reserved regions zero.
pub(crate) fn clear_all(mem: &mut HostMem, root: u8, map: &RegionMap, frames: &[u32])
    requires { (frame : ℕ)
        → 0 < holds frame (record { root = root; regions = map.now; frames = frames.now })
        → IsInside mem.old frame }
    ensures zeros { (frame : ℕ)
        → 0 < holds frame (record { root = root; regions = map.now; frames = frames.now })
        → IsZero mem.new frame }
    ensures within { Within (record { root = root; regions = map.now; frames = frames.now })
        mem.old mem.new }
{
    unmap_all(mem, root, frames);
    clear_reserved(mem, map.regions());
}

/// Gives back frames that are out.
fn give_frames(pool: &mut Pool, frames: &[u32])
    requires pool { (frame : ℕ) → 0 < hits frame frames.now
        → (pool.old.first ≤ frame) × (frame < pool.old.first + pool.old.count) }
    requires out { (frame : ℕ) → hits frame frames.now + hits frame pool.old.free ≤ 1 }
    ensures sums { (weight : ℕ → ℕ)
        → sum_by weight pool.new.free ≡ sum_by weight frames.now + sum_by weight pool.old.free }
    ensures others { pool.new ≡ record pool.old { free = pool.new.free } }
{
    for frame in frames {
        pool.give(*frame);
    }
}

/// Gives back a root, the frames and the ranges of the reserved regions, which are out.
pub(crate) fn give_numbers(pool: &mut Pool, root: u8, map: &RegionMap, frames: &[u32])
    requires root { slice_get pool.old.roots root ≡ Some true }
    requires pool { (frame : ℕ) → 0 < hits frame frames.now
        → (pool.old.first ≤ frame) × (frame < pool.old.first + pool.old.count) }
    requires out { (frame : ℕ) → hits frame frames.now + hits frame pool.old.free ≤ 1 }
    requires ranges { (weight : Span → ℕ)
        → sum_by weight (reserved_ranges map.now) ≤ sum_by weight pool.old.held }
    ensures frames { (weight : ℕ → ℕ)
        → sum_by weight pool.new.free ≡ sum_by weight frames.now + sum_by weight pool.old.free }
    ensures ranges { (weight : Span → ℕ)
        → sum_by weight (reserved_ranges map.now) + sum_by weight pool.new.held
        ≡ sum_by weight pool.old.held }
    ensures others { pool.new ≡ record pool.old {
      free = pool.new.free;
      roots = slice_set pool.old.roots root false;
      held = pool.new.held;
    } }
    ensures sound { IsSound pool.new }
{
    give_frames(pool, frames);
    give_ranges(pool, map.regions());
    pool.give_root(root);
}
