//! The regions of a guest that may stand together.
ghost use Rattle.std.specs.Prelude.{◌≡◌, None, IsTrue, IfOk, IfErr, OnOk};
ghost use Rattle.xv_region.specs.Cell.{cell};
ghost use Rattle.xv_region.specs.Need.{need};
ghost use Rattle.xv_region.specs.Rules.{Accepted, IsFault, are_sound, first_fault};

use crate::cell::{Cell, cell_at, place_of};
use crate::fault::RegionFault;
use crate::need::need_of;
use crate::plan::{Kind, Region};
use crate::rules::fault_of;
use std::alloc::Global;
use std::marker::Model;
use xv_base::Span;

/// The regions of a guest, in their order, that may stand together. Contracts see the list of them.
#[derive(Debug, Drop)]
pub struct RegionMap {
    regions: Vec<Region>,
}

impl Model for RegionMap {
    ghost use Rattle.std.specs.Prelude.{List};
    ghost use Rattle.xv_region.specs.declared.plan.Region.{Region};
    ghost use Rattle.xv_region.specs.Rules.{Accepted};

    ghost Value = { List Region };

    ghost view = { λ map. map.regions.items };

    ghost invariant = { λ map. Accepted map.regions.items };
}

impl RegionMap {
    /// The map of these regions over the reserved area of the host, in bytes, or the first rule
    /// that they break together. By themselves they are sound: at most 32 of them, aligned to pages
    /// or to 8 bytes for devices, not empty, and below 2^41.
    pub fn build(alloc: Global, regions: &[Region], area: Span) -> Result<RegionMap, RegionFault>
        requires sound { IsTrue (are_sound regions.now) }
        ensures map { IfOk result (λ map. map ≡ regions.now) }
        ensures faultless { OnOk result (first_fault area regions.now ≡ None) }
        ensures fault { IfErr result (IsFault (first_fault area regions.now)) }
    {
        for (number, region) in regions.iter().enumerate() {
            if let Some(fault) = fault_of(regions, &area, number, region) {
                return Err(fault);
            }
        }
        let kept = Vec::from_slice(alloc, regions)?;
        Ok(RegionMap { regions: kept })
    }

    /// The regions, in their order.
    pub fn regions(&self) -> &[Region]
        ensures value { result.now ≡ self.now }
        ensures accepted { Accepted self.now }
    {
        &self.regions
    }

    /// What the `len` bytes from guest physical address `gpa` on name. An alias names memory of the
    /// region that it leads to.
    pub fn cell(&self, gpa: u64, len: u64) -> Cell
        ensures cell { result ≡ cell self.now gpa len }
    {
        let Some(place) = place_of(&self.regions, gpa, len) else {
            return Cell::Nothing;
        };
        let Kind::Alias { target } = place.kind else {
            return cell_at(&place);
        };
        let Some(end) = place_of(&self.regions, target + place.offset, len) else {
            return Cell::Nothing;
        };
        cell_at(&end)
    }

    /// How many frames of 4 KiB a guest of these regions takes: its pages, and the tables of its
    /// G stage below the root.
    pub fn need(&self) -> u64
        ensures count { result ≡ need self.now }
    {
        need_of(&self.regions)
    }
}
