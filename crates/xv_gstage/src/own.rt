//! The own frame of a page.
ghost use Rattle.std.specs.Prelude.{◌≡◌, ◌^◌, ◌<◌, ◌≤◌, length};
ghost use Rattle.xv_region.specs.Need.{is_mapped, own_pages};
ghost use Rattle.xv_gstage.specs.Own as own;

use xv_pte::Mapping;
use xv_region::{Cell, Kind, Region, RegionMap};

/// The size of a page and of a frame, in bytes.
pub(crate) const PAGE: u64 = 4096;

/// The frame that a page below 2^52 is to be led to, and whether the guest may write there; none
/// where the page is no memory.
#[tactic(auto, unfolding(crate::specs::Own::own))]
pub(crate) fn own_of(map: &RegionMap, frames: &[u32], page: u64) -> Option<Mapping>
    requires room { own.pages_of map.now ≤ length frames.now }
    requires small { page < 2 ^ 52 }
    ensures { result ≡ own.own map.now frames.now page }
{
    match map.cell(PAGE * page, 1) {
        Cell::Memory {
            region,
            offset,
            writable,
        } => {
            let frame = frame_of(map.regions(), frames, region, offset / PAGE)?;
            Some(Mapping { frame, writable })
        }
        Cell::Device {
            region: _,
            offset: _,
        } => None,
        Cell::Nothing => None,
    }
}

/// The frame of host memory under a page of region `number`, by the page's index from the region's
/// first one on; none past its last page, and under an alias, a device or no region at all.
pub fn frame_of(regions: &[Region], frames: &[u32], number: u8, index: u64) -> Option<u64>
    requires room { own.pages_of regions.now ≤ length frames.now }
    ensures { result ≡ own.frame_of regions.now frames.now number index }
{
    let number = number as usize;
    if number >= regions.len() {
        return None;
    }
    let region = &regions[number];
    if index >= region.size / PAGE {
        return None;
    }
    let first = pages_of(&regions[..number]);
    match region.kind {
        Kind::Ram => Some(frames[(first + index) as usize] as u64),
        Kind::Rom => Some(frames[(first + index) as usize] as u64),
        Kind::Reserved { host } => Some(host / PAGE + index),
        Kind::Alias { target: _ } => None,
        Kind::Device(_) => None,
    }
}

/// How many pages of these regions have a frame in the guest's list.
pub(crate) fn pages_of(regions: &[Region]) -> u64
    requires { own.pages_of regions.now < 2 ^ 64 }
    ensures sum { result ≡ own.pages_of regions.now }
{
    let mut pages = 0;
    for region in regions {
        pages += own_pages(region);
    }
    pages
}

fn own_pages(region: &Region) -> u64
    ensures { result ≡ own_pages region.now }
{
    match region.kind {
        Kind::Ram => region.size / PAGE,
        Kind::Rom => region.size / PAGE,
        Kind::Reserved { host: _ } => 0,
        Kind::Alias { target: _ } => 0,
        Kind::Device(_) => 0,
    }
}

/// Whether a region's addresses lead to memory.
pub(crate) fn is_mapped(kind: &Kind) -> bool
    ensures { result ≡ is_mapped kind.now }
{
    match kind {
        Kind::Ram => true,
        Kind::Rom => true,
        Kind::Reserved { host: _ } => true,
        Kind::Alias { target: _ } => true,
        Kind::Device(_) => false,
    }
}
