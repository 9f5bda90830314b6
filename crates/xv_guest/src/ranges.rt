//! The ranges of the host's reserved area that a guest takes and gives back.
ghost use Rattle.std.specs.Prelude.{◌≡◌, ℕ, ◌+◌, ◌≤◌, ◌++◌, false, length, sum_by, option_to_list};
ghost use Rattle.std.specs.Prelude.{IfOk, OnOk};
ghost use Rattle.std.specs.List.{All, list_any};
ghost use Rattle.xv_base.specs.declared.keys.Span.{Span};
ghost use Rattle.xv_base.specs.Range.{LiesIn, meets_one};
ghost use Rattle.xv_region.specs.Rules.{Accepted};
ghost use Rattle.xv_guest.specs.Frames.{ranges_of, reserved_ranges};

use std::alloc::Global;
use xv_base::{NoMemory, Span};
use xv_pool::Pool;
use xv_region::{Kind, Region};

/// The host's bytes of a region, where it is reserved.
fn range_of(region: &Region) -> Option<Span>
    ensures { option_to_list result ≡ ranges_of region.now }
{
    match region.kind {
        Kind::Reserved { host } => Some(Span {
            start: host,
            len: region.size,
        }),
        Kind::Ram => None,
        Kind::Rom => None,
        Kind::Alias { target: _ } => None,
        Kind::Device(_) => None,
    }
}

/// Appends a region's range.
fn push_range(ranges: &mut Vec<Span>, region: &Region) -> Result<(), NoMemory>
    ensures { OnOk result (ranges.new.items ≡ ranges.old.items ++ ranges_of region.now) }
{
    if let Some(range) = range_of(region) {
        ranges.push(range)?;
    }
    Ok(())
}

/// The host's bytes of the reserved regions, in the order of the regions.
pub fn reserved_ranges(alloc: Global, regions: &[Region]) -> Result<Vec<Span>, NoMemory>
    ensures { IfOk result (λ ranges. ranges.items ≡ reserved_ranges regions.now) }
{
    let mut ranges = Vec::new(alloc);
    for region in regions {
        push_range(&mut ranges, region)?;
    }
    Ok(ranges)
}

/// Takes a region's range, which can be had.
fn take_range(pool: &mut Pool, region: &Region)
    requires area { All (λ range. LiesIn range pool.old.area) (ranges_of region.now) }
    requires room { length pool.old.held + length (ranges_of region.now) ≤ 512 }
    requires free { list_any (meets_one pool.old.held) (ranges_of region.now) ≡ false }
    ensures { pool.new ≡ record pool.old { held = pool.old.held ++ ranges_of region.now } }
{
    if let Some(range) = range_of(region) {
        let Ok(()) = pool.take_reserved(range) else {
            unreachable!("the range can be had");
        };
    }
}

/// Takes the ranges of the reserved regions, which can be had.
pub(crate) fn take_ranges(pool: &mut Pool, regions: &[Region])
    requires accepted { Accepted regions.now }
    requires area { All (λ range. LiesIn range pool.old.area) (reserved_ranges regions.now) }
    requires room { length pool.old.held + length (reserved_ranges regions.now) ≤ 512 }
    requires free { list_any (meets_one pool.old.held) (reserved_ranges regions.now) ≡ false }
    ensures { pool.new
        ≡ record pool.old { held = pool.old.held ++ reserved_ranges regions.now } }
{
    for region in regions {
        take_range(pool, region);
    }
}

/// Gives back a region's range, which is held.
fn give_range(pool: &mut Pool, region: &Region)
    requires held { (weight : Span → ℕ)
        → sum_by weight (ranges_of region.now) ≤ sum_by weight pool.old.held }
    ensures sums { (weight : Span → ℕ)
        → sum_by weight (ranges_of region.now) + sum_by weight pool.new.held
        ≡ sum_by weight pool.old.held }
    ensures others { pool.new ≡ record pool.old { held = pool.new.held } }
{
    if let Some(range) = range_of(region) {
        pool.give_reserved(range);
    }
}

/// Gives back the ranges of the reserved regions, which are held.
pub(crate) fn give_ranges(pool: &mut Pool, regions: &[Region])
    requires held { (weight : Span → ℕ)
        → sum_by weight (reserved_ranges regions.now) ≤ sum_by weight pool.old.held }
    ensures sums { (weight : Span → ℕ)
        → sum_by weight (reserved_ranges regions.now) + sum_by weight pool.new.held
        ≡ sum_by weight pool.old.held }
    ensures others { pool.new ≡ record pool.old { held = pool.new.held } }
{
    for region in regions {
        give_range(pool, region);
    }
}
