//! The pages that are led right, counted.
ghost use Rattle.std.specs.Prelude.{◌≡◌, ◌+◌, ◌^◌, ◌<◌, ◌≤◌, length, if◌then◌else◌};
ghost use Rattle.xv_pte.specs.GStage.{HasTables};
ghost use Rattle.xv_region.specs.Need.{need};
ghost use Rattle.xv_gstage.specs.Audit as audit;
ghost use Rattle.xv_gstage.specs.Own.{pages_of};

use crate::own::{PAGE, is_mapped, own_of};
use std::sync::ledger::Ledger;
use xv_mem::{HostMem, Steps};
use xv_pte::walk;
use xv_region::{Region, RegionMap};

/// How many pages of the guest's real, reserved and alias regions are led to their own frame, with
/// the right permission. The tables of the root are to lie in the memory.
pub fn audit<L: Ledger>(
    mem: &HostMem,
    root: u8,
    map: &RegionMap,
    frames: &[u32],
    steps: &mut Steps<L>,
) -> u64
    requires tables { HasTables mem.now root }
    requires enough { length frames.now ≡ need map.now }
    ensures count { result ≡ audit.audited mem.now root map.now frames.now }
{
    let mut count = 0;
    for region in map.regions() {
        count += right_pages(mem, root, map, frames, region, steps);
    }
    count
}

/// How many of a region.
fn right_pages<L: Ledger>(
    mem: &HostMem,
    root: u8,
    map: &RegionMap,
    frames: &[u32],
    region: &Region,
    steps: &mut Steps<L>,
) -> u64
    requires tables { HasTables mem.now root }
    requires room { pages_of map.now ≤ length frames.now }
    requires base { region.now.base + region.now.size ≤ 2 ^ 41 }
    ensures count { result ≡ audit.right_pages mem.now root map.now frames.now region.now }
    ensures small { result ≤ 2 ^ 41 }
{
    let mut count = 0;
    for i in 0..mapped_pages(region) {
        let right = is_right(mem, root, map, frames, region.base / PAGE + i, steps);
        count += one_if(right);
    }
    count
}

fn one_if(right: bool) -> u64
    ensures { result ≡ (if right then 1 else 0) }
{
    if right { 1 } else { 0 }
}

/// Whether a page is led to its own frame, with the right permission.
fn is_right<L: Ledger>(
    mem: &HostMem,
    root: u8,
    map: &RegionMap,
    frames: &[u32],
    page: u64,
    steps: &mut Steps<L>,
) -> bool
    requires tables { HasTables mem.now root }
    requires room { pages_of map.now ≤ length frames.now }
    requires small { page < 2 ^ 52 }
    ensures right { result ≡ audit.is_right mem.now root map.now frames.now page }
{
    let Some(own) = own_of(map, frames, page) else {
        return false;
    };
    let Some(leaf) = walk(mem, root, PAGE * page, steps) else {
        return false;
    };
    own.frame == leaf.host / PAGE && own.writable == leaf.writable
}

fn mapped_pages(region: &Region) -> u64
    ensures { result ≡ audit.mapped_pages region.now }
{
    if is_mapped(&region.kind) {
        region.size / PAGE
    } else {
        0
    }
}
