//! Which regions may stand together.
ghost use Rattle.std.specs.Prelude.{◌≡◌, ◌<◌, ◌≤◌, length, take};
ghost use Rattle.std.specs.List.{list_any, position};
ghost use Rattle.xv_region.specs.Rules.{fault_of, kind_fault, shares, holds_own, meets_host};
ghost use Rattle.xv_region.specs.Rules.{is_good_alias, is_good_host, is_real};

use crate::cell::span_of;
use crate::fault::RegionFault;
use crate::plan::{Kind, Region};
use xv_base::{Span, lies_in, meets};

/// The size of a page, in bytes.
pub(crate) const PAGE: u64 = 4096;

/// What is wrong with region `number`, after the earlier ones: it shares a byte with one of them,
/// or its own kind's rule is broken.
pub(crate) fn fault_of(
    regions: &[Region],
    area: &Span,
    number: usize,
    region: &Region,
) -> Option<RegionFault>
    requires few { length regions.now ≤ 32 }
    requires within { number < length regions.now }
    ensures fault { result
        ≡ fault_of area.now regions.now (take number regions.now) number region.now }
{
    let earlier = &regions[..number];
    match sharer_of(earlier, region) {
        Some(first) => Some(RegionFault::Overlap(first as u8, number as u8)),
        None => kind_fault(regions, area, number, region),
    }
}

/// The fault of region `number`'s own kind.
fn kind_fault(
    regions: &[Region],
    area: &Span,
    number: usize,
    region: &Region,
) -> Option<RegionFault>
    requires few { length regions.now ≤ 32 }
    requires within { number < length regions.now }
    ensures fault { result ≡ kind_fault area.now regions.now (take number regions.now) number
        region.now.size region.now.kind }
{
    match region.kind {
        Kind::Ram => None,
        Kind::Rom => None,
        Kind::Reserved { host } => {
            if is_good_host(area, &regions[..number], host, region.size) {
                None
            } else {
                Some(RegionFault::BadHost(number as u8))
            }
        }
        Kind::Alias { target } => {
            if is_good_alias(regions, target, region.size) {
                None
            } else {
                Some(RegionFault::BadAlias(number as u8))
            }
        }
        Kind::Device(_) => None,
    }
}

/// The first region that shares a byte with this one.
fn sharer_of(earlier: &[Region], region: &Region) -> Option<usize>
    ensures first { result ≡ position (shares region.now) earlier.now }
{
    earlier
        .iter()
        .position(|other| meets(&span_of(region), &span_of(other)))
}

/// Whether an alias names whole pages of one region's own memory.
fn is_good_alias(regions: &[Region], target: u64, size: u64) -> bool
    ensures { result ≡ is_good_alias regions.now target size }
{
    let bytes = Span {
        start: target,
        len: size,
    };
    target % PAGE == 0 && is_own(regions, &bytes)
}

/// Whether the bytes lie wholly in one region, and are its own memory.
fn is_own(regions: &[Region], bytes: &Span) -> bool
    ensures { result ≡ list_any (holds_own bytes.now) regions.now }
{
    regions.iter().any(|region| holds_own(bytes, region))
}

fn holds_own(bytes: &Span, region: &Region) -> bool
    ensures { result ≡ holds_own bytes.now region.now }
{
    is_real(&region.kind) && lies_in(bytes, &span_of(region))
}

/// Whether such a region is memory that isn't another region's.
fn is_real(kind: &Kind) -> bool
    ensures { result ≡ is_real kind.now }
{
    match kind {
        Kind::Ram => true,
        Kind::Rom => true,
        Kind::Reserved { host: _ } => true,
        Kind::Alias { target: _ } => false,
        Kind::Device(_) => false,
    }
}

/// Whether a reserved region names whole pages of the area that no earlier one names.
fn is_good_host(area: &Span, earlier: &[Region], host: u64, size: u64) -> bool
    ensures { result ≡ is_good_host area.now earlier.now host size }
{
    let bytes = Span {
        start: host,
        len: size,
    };
    host % PAGE == 0 && lies_in(&bytes, area) && !is_held(earlier, &bytes)
}

/// Whether an earlier region names one of these bytes of the host.
fn is_held(earlier: &[Region], bytes: &Span) -> bool
    ensures { result ≡ list_any (meets_host bytes.now) earlier.now }
{
    earlier.iter().any(|region| meets_host(bytes, region))
}

fn meets_host(bytes: &Span, region: &Region) -> bool
    ensures { result ≡ meets_host bytes.now region.now }
{
    match region.kind {
        Kind::Ram => false,
        Kind::Rom => false,
        Kind::Reserved { host } => {
            let held = Span {
                start: host,
                len: region.size,
            };
            meets(bytes, &held)
        }
        Kind::Alias { target: _ } => false,
        Kind::Device(_) => false,
    }
}
