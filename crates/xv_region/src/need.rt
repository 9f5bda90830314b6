//! How many frames of the host a guest takes.
ghost use Rattle.std.specs.Prelude.{◌≡◌, ℕ, ◌+◌, ◌*◌, ◌/◌, ◌<◌, ◌≤◌, false, length, sum_by, IsTrue};
ghost use Rattle.std.specs.List.{list_any};
ghost use Rattle.xv_region.specs.Need.{blocks_touched, count_below, is_mapped, is_new, need};
ghost use Rattle.xv_region.specs.Need.{one_if_new};
ghost use Rattle.xv_region.specs.Need.{own_pages, touches};
ghost use Rattle.xv_region.specs.Rules.{Accepted, address_end, are_sound, shares};

use crate::cell::span_of;
use crate::plan::{Kind, Region};
use crate::rules::PAGE;
use xv_base::{Span, meets};

/// The sizes of the two blocks for which the G stage has a table each, in bytes.
const BLOCK_1_GIB: u64 = 1 << 30;

const BLOCK_2_MIB: u64 = 1 << 21;

/// How many frames of 4 KiB a guest of these regions takes, which may stand together: its pages,
/// and the tables of its G stage below the root.
pub fn need_of(regions: &[Region]) -> u64
    requires accepted { Accepted regions.now }
    ensures count { result ≡ need regions.now }
{
    let pages = pages_of(regions);
    let upper = blocks_touched(regions, BLOCK_1_GIB);
    let lower = blocks_touched(regions, BLOCK_2_MIB);
    pages + upper + lower
}

/// The pages of the guest's own memory.
fn pages_of(regions: &[Region]) -> u64
    requires sound { IsTrue (are_sound regions.now) }
    ensures sum { result ≡ sum_by own_pages regions.now }
    ensures small { result ≤ length regions.now * address_end }
{
    let mut pages = 0;
    for region in regions {
        pages += own_pages(region);
    }
    pages
}

fn own_pages(region: &Region) -> u64
    ensures { result ≡ own_pages region.now }
{
    match region.kind {
        Kind::Ram => region.size / PAGE,
        Kind::Rom => region.size / PAGE,
        Kind::Reserved { host: _ } => 0,
        Kind::Alias { target: _ } => 0,
        Kind::Device(_) => 0,
    }
}

/// How many blocks of `size` bytes the regions touch.
fn blocks_touched(regions: &[Region], size: u64) -> u64
    requires accepted { Accepted regions.now }
    requires positive { 0 < size }
    requires whole { address_end / size * size ≡ address_end }
    ensures count { result ≡ blocks_touched size (address_end / size) regions.now }
    ensures small { result ≤ address_end }
{
    let mut total = 0;
    for (number, region) in regions.iter().enumerate() {
        total += new_blocks(&regions[..number], region, size);
    }
    total
}

/// How many blocks a region touches that no earlier one does. Regions are apart, so only its first
/// and its last block can be those of an earlier one.
fn new_blocks(earlier: &[Region], region: &Region, size: u64) -> u64
    requires apart { list_any (shares region.now) earlier.now ≡ false }
    requires some { 0 < region.now.size }
    requires bounded { region.now.base + region.now.size ≤ address_end }
    requires positive { 0 < size }
    requires small { size ≤ address_end }
    ensures count { (n : ℕ) → region.now.base + region.now.size ≤ n * size
        → result ≡ count_below (is_new size earlier.now region.now) n }
{
    if !is_mapped(&region.kind) {
        return 0;
    }
    let first = region.base / size;
    let last = (region.base + region.size - 1) / size;
    if first == last {
        one_if_new(earlier, first, size)
    } else {
        one_if_new(earlier, first, size) + (last - first - 1) + one_if_new(earlier, last, size)
    }
}

/// 1 for a block that none of the regions touches, else 0.
fn one_if_new(earlier: &[Region], block: u64, size: u64) -> u64
    requires bounded { block * size ≤ address_end }
    ensures { result ≡ one_if_new size earlier.now block }
{
    if is_touched(earlier, block, size) {
        0
    } else {
        1
    }
}

fn is_touched(regions: &[Region], block: u64, size: u64) -> bool
    requires bounded { block * size ≤ address_end }
    ensures { result ≡ list_any (touches size block) regions.now }
{
    let bytes = Span {
        start: block * size,
        len: size,
    };
    regions.iter().any(|region| is_mapped(&region.kind) && meets(&bytes, &span_of(region)))
}

/// Whether such a region's addresses lead to memory.
fn is_mapped(kind: &Kind) -> bool
    ensures { result ≡ is_mapped kind.now }
{
    match kind {
        Kind::Ram => true,
        Kind::Rom => true,
        Kind::Reserved { host: _ } => true,
        Kind::Alias { target: _ } => true,
        Kind::Device(_) => false,
    }
}
