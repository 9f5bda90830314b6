//! All of a guest's memory, mapped at once.
ghost use Rattle.std.specs.Prelude.{◌≡◌, ℕ, ◌+◌, ◌*◌, ◌/◌, ◌≤◌, None, true, length};
ghost use Rattle.std.specs.Prelude.{if◌then◌else◌, sum_by};
ghost use Rattle.std.specs.List.{Contains};
ghost use Rattle.xv_pte.specs.GStage.{HasTables, IsTableOf, frame_bytes, led};
ghost use Rattle.xv_region.specs.Need.{is_mapped};
ghost use Rattle.xv_gstage.specs.Audit.{audited, mapped_pages};
ghost use Rattle.xv_gstage.specs.Memory.{AreApart, AreZero, HasFrames, IsElsewhere, IsZeroRoot};
ghost use Rattle.xv_gstage.specs.Memory.{SameOutside, SameWalks};
ghost use Rattle.xv_gstage.specs.Own.{is_memory_page, maps_page, own, page_frames, table_frames};
ghost use Rattle.xv_gstage.specs.Own.{IsWhole};
ghost use Rattle.xv_gstage.specs.Stands.{Filled, IsOffGround, RightCell};
ghost use Rattle.xv_gstage.specs.Tidy.{IsTidy, Tidy};

use crate::own::{PAGE, is_mapped};
use crate::tables::fill;
use std::sync::ledger::Ledger;
use xv_mem::{HostMem, Steps};
use xv_region::{Region, RegionMap};

/// Leads every page of the guest's memory to its own frame, from a root of zeros. The frames are
/// those of the guest's pages, in region order, and then those of its tables, which are zero. No
/// reserved region has a frame of the root or of the list.
pub fn map<L: Ledger>(
    mem: &mut HostMem,
    root: u8,
    map: &RegionMap,
    frames: &[u32],
    steps: &mut Steps<L>,
)
    requires frames { HasFrames (length mem.old) root map.now frames.now }
    requires root { IsZeroRoot mem.old root }
    requires zeros { AreZero mem.old (table_frames map.now frames.now) }
    requires apart { AreApart root map.now frames.now }

    ensures led { (page : ℕ) → led mem.new root page ≡ own map.now frames.now page }
    ensures right { RightCell mem.new root map.now }
    ensures filled { Filled mem.new root map.now }
    ensures ground { IsOffGround mem.new root root }
    ensures audited { audited mem.new root map.now frames.now ≡ sum_by mapped_pages map.now }

    ensures tidy { IsTidy mem.new root map.now frames.now }
    ensures tables { HasTables mem.new root }

    ensures others { (other : ℕ)
        → IsElsewhere mem.old root (table_frames map.now frames.now) other
        → SameWalks mem.old mem.new other }
    ensures pages { (frame : ℕ) → Contains (page_frames map.now frames.now) frame
        → frame_bytes mem.new frame ≡ frame_bytes mem.old frame }
    ensures outside { SameOutside mem.old mem.new root (table_frames map.now frames.now) }
{
    let _regions = map.regions();
    fill_all(mem, root, map, frames, steps);
}

/// Fills every page of every real, reserved and alias region.
fn fill_all<L: Ledger>(
    mem: &mut HostMem,
    root: u8,
    map: &RegionMap,
    frames: &[u32],
    steps: &mut Steps<L>,
)
    requires frames { HasFrames (length mem.old) root map.now frames.now }
    requires tidy { Tidy mem.old root map.now frames.now 0 }
    requires unled { (page : ℕ) → led mem.old root page ≡ None }
    ensures led { (page : ℕ) → led mem.new root page ≡ own map.now frames.now page }
    ensures tidy { IsTidy mem.new root map.now frames.now }
    ensures outside { SameOutside mem.old mem.new root (table_frames map.now frames.now) }
{
    let mut used = 0;
    for region in map.regions() {
        used = fill_region(mem, root, map, frames, used, region, steps);
    }
}

/// Fills every page of a region that is no device.
fn fill_region<L: Ledger>(
    mem: &mut HostMem,
    root: u8,
    map: &RegionMap,
    frames: &[u32],
    used: u64,
    region: &Region,
    steps: &mut Steps<L>,
) -> u64
    requires frames { HasFrames (length mem.old) root map.now frames.now }
    requires tidy { Tidy mem.old root map.now frames.now used }
    requires whole { IsWhole region.now }
    requires memory { (page : ℕ) → maps_page page region.now ≡ true
        → is_memory_page map.now page ≡ true }
    requires unled { (page : ℕ) → maps_page page region.now ≡ true
        → led mem.old root page ≡ None }
    ensures led { (page : ℕ) → led mem.new root page
        ≡ (if maps_page page region.now then own map.now frames.now page
        else led mem.old root page) }
    ensures tidy { Tidy mem.new root map.now frames.now result }
    ensures outside { SameOutside mem.old mem.new root (table_frames map.now frames.now) }
{
    if !is_mapped(&region.kind) {
        return used;
    }
    let first = region.base / PAGE;
    let mut used = used;
    for page in first..first + region.size / PAGE {
        used = fill(mem, root, map, frames, used, page, steps);
    }
    used
}
