//! What an address names.
ghost use Rattle.std.specs.Prelude.{◌≡◌, ℕ, ◌≤◌, length, IfSome, IfNone};
ghost use Rattle.std.specs.List.{position};
ghost use Rattle.xv_region.specs.declared.cell.Cell.{Cell};
ghost use Rattle.xv_region.specs.declared.cell.Cell.TheVariants as cells;
ghost use Rattle.xv_region.specs.Cell.{cell_from, cell_within, holds, nowhere, span_of};
ghost use Rattle.xv_region.specs.Rules.{Accepted, IsReached};

use crate::plan::{Kind, Region};
use xv_base::{Span, lies_in};

/// What guest physical addresses name: bytes of a region's memory, with the region's number from 0
/// and the offset of the first byte in it; a place in a device's registers; or nothing.
#[derive(Clone, Copy, Debug, PartialEq, Eq)]
pub enum Cell {
    Memory {
        region: u8,
        offset: u64,
        writable: bool,
    },
    Device {
        region: u8,
        offset: u64,
    },
    Nothing,
}

/// Where bytes lie: the number of their region, how far in, and what stands behind it.
#[derive(Clone, Copy)]
pub(crate) struct Place {
    pub(crate) region: u8,
    pub(crate) offset: u64,
    pub(crate) kind: Kind,
}

/// Where the bytes lie wholly, if there is such a region.
pub(crate) fn place_of(regions: &[Region], gpa: u64, len: u64) -> Option<Place>
    requires few { length regions.now ≤ 32 }
    ensures found { IfSome result (λ p. (hop : ℕ → Cell)
        → cell_from hop 0 regions.now gpa len ≡ cell_within hop p.region p.offset p.kind) }
    ensures none { IfNone result ((hop : ℕ → Cell)
        → cell_from hop 0 regions.now gpa len ≡ cells.Nothing) }
    ensures reached { Accepted regions.now → IfSome result (λ p. IsReached p.offset p.kind) }
{
    let bytes = Span { start: gpa, len };
    let Some(number) = holder_of(regions, &bytes) else {
        return None;
    };
    let region = &regions[number];
    Some(Place {
        region: number as u8,
        offset: gpa - region.base,
        kind: region.kind,
    })
}

/// The first region in which the bytes lie wholly.
fn holder_of(regions: &[Region], bytes: &Span) -> Option<usize>
    ensures { result ≡ position (holds bytes.now) regions.now }
{
    regions
        .iter()
        .position(|region| lies_in(bytes, &span_of(region)))
}

/// What a place that an alias leads to names: an alias of an alias leads nowhere.
pub(crate) fn cell_at(place: &Place) -> Cell
    ensures { result ≡ cell_within nowhere place.now.region place.now.offset place.now.kind }
{
    let region = place.region;
    let offset = place.offset;
    match place.kind {
        Kind::Ram => Cell::Memory {
            region,
            offset,
            writable: true,
        },
        Kind::Rom => Cell::Memory {
            region,
            offset,
            writable: false,
        },
        Kind::Reserved { host: _ } => Cell::Memory {
            region,
            offset,
            writable: true,
        },
        Kind::Alias { target: _ } => Cell::Nothing,
        Kind::Device(_) => Cell::Device { region, offset },
    }
}

/// The addresses of a region.
pub(crate) fn span_of(region: &Region) -> Span
    ensures { result ≡ span_of region.now }
{
    Span {
        start: region.base,
        len: region.size,
    }
}
