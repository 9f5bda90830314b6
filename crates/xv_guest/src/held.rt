//! What a guest holds of a host, by which its memory is found there.
ghost use Rattle.std.specs.Prelude.{◌≡◌, ◌/◌, ◌%◌, ◌<◌, ◌≤◌, length, Some};
ghost use Rattle.xv_gstage.specs.Own.{frame_of, pages_of};
ghost use Rattle.xv_region.specs.Cell.{cell};
ghost use Rattle.xv_region.specs.Rules.{Accepted};
ghost use Rattle.xv_guest.specs.Frames.{IsInside};
ghost use Rattle.xv_guest.specs.Guest.{root_or_none};
ghost use Rattle.xv_guest.specs.Held.{IsHeld, region_bytes};

use std::marker::Model;
use xv_gstage::frame_of;
use xv_mem::HostMem;
use xv_region::{Cell, RegionMap};

/// Bytes in a page and in a frame.
pub(crate) const PAGE: u64 = 4096;

/// A root table, the regions of a guest, and its frames.
#[derive(Drop)]
pub(crate) struct Held<'a> {
    root: u8,
    map: &'a RegionMap,
    frames: &'a [u32],
}

impl<'a> Model for Held<'a> {
    ghost use Rattle.xv_guest.specs.Held.{Held};

    ghost Value = { Held };

    ghost view = { λ held. record {
      root = held.root;
      regions = held.map.now;
      frames = held.frames.now;
    } };
}

impl<'a> Held<'a> {
    pub(crate) fn new(root: Option<u8>, map: &'a RegionMap, frames: &'a [u32]) -> Held<'a>
        ensures { result ≡ record {
          root = root_or_none root;
          regions = map.now;
          frames = frames.now;
        } }
    {
        let root = root.unwrap_or(0);
        Held { root, map, frames }
    }

    pub(crate) fn map(&self) -> &RegionMap
        ensures { result.now ≡ self.now.regions }
    {
        self.map
    }

    fn frames(&self) -> &[u32]
        ensures { result.now ≡ self.now.frames }
    {
        self.frames
    }

    /// What bytes at a guest physical address name.
    pub(crate) fn cell(&self, gpa: u64, len: usize) -> Cell
        ensures cell { result ≡ cell self.now.regions gpa len }
        ensures accepted { Accepted self.now.regions }
    {
        let _regions = self.map().regions();
        self.map().cell(gpa, len as u64)
    }

    /// The host address of a byte of a region.
    pub(crate) fn host_at(&self, mem: &HostMem, region: u8, offset: u64) -> u64
        requires held { IsHeld mem.now self.now }
        requires inside { offset < length (region_bytes mem.now self.now region) }
        ensures frame { frame_of self.now.regions self.now.frames region (offset / 4096)
            ≡ Some (result / 4096) }
        ensures place { result % 4096 ≡ offset % 4096 }
        ensures inside { IsInside mem.now (result / 4096) }
    {
        let Some(frame) = self.frame(region, offset / PAGE) else {
            unreachable!("the byte has a frame");
        };
        let _frames = mem.frames();
        PAGE * frame + offset % PAGE
    }

    /// The frame under a page of a region, by the page's index; none past its last page.
    pub(crate) fn frame(&self, region: u8, index: u64) -> Option<u64>
        requires room { pages_of self.now.regions ≤ length self.now.frames }
        ensures frame { result ≡ frame_of self.now.regions self.now.frames region index }
        ensures accepted { Accepted self.now.regions }
    {
        frame_of(self.map().regions(), self.frames(), region, index)
    }
}
