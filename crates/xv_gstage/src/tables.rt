//! Tables that are hung where a page needs them, and the leaf of a page.
ghost use Rattle.std.specs.Prelude.{◌≡◌, ◌≢◌, ℕ, ◌+◌, ◌*◌, ◌/◌, ◌^◌, ◌%◌, ◌<◌, ◌≤◌, None, Some};
ghost use Rattle.std.specs.Prelude.{true};
ghost use Rattle.std.specs.Prelude.{length};
ghost use Rattle.xv_pte.specs.declared.g_entry.GEntry.TheVariants.{Pointer};
ghost use Rattle.xv_pte.specs.GStage.{led};
ghost use Rattle.xv_region.specs.Need.{need};
ghost use Rattle.xv_region.specs.Rules.{Accepted};
ghost use Rattle.xv_pte.specs.GStage as stage;
ghost use Rattle.xv_gstage.specs.Fill.{IsFill};
ghost use Rattle.xv_gstage.specs.Memory.{HasFrames};
ghost use Rattle.xv_gstage.specs.Blocks.{entry_for};
ghost use Rattle.xv_gstage.specs.Own.{is_memory_page, own, pages_of, table_frames};
ghost use Rattle.xv_gstage.specs.Tidy.{Tidy};
ghost use Rattle.xv_gstage.specs.Write.{IsFound, IsHung, IsNoPointer, Wrote};

use crate::own::{own_of, pages_of};
use std::sync::ledger::Ledger;
use xv_mem::{HostMem, Steps};
use xv_pte::{GEntry, Mapping, g_entry_of};
use xv_region::RegionMap;

/// The frame of a table, and how many table frames of the guest are in use.
#[derive(Clone, Copy)]
pub(crate) struct Found {
    pub(crate) table: u64,
    pub(crate) used: u64,
}

/// Leads a page of the guest's memory to its own frame, by a leaf of 4 KiB. `used` is how many of
/// the guest's table frames are in use; the answer is how many are then. The page is led nowhere
/// before. At most 5 words are read or written.
pub fn fill<L: Ledger>(
    mem: &mut HostMem,
    root: u8,
    map: &RegionMap,
    frames: &[u32],
    used: u64,
    page: u64,
    steps: &mut Steps<L>,
) -> u64
    requires frames { HasFrames (length mem.old) root map.now frames.now }
    requires tidy { Tidy mem.old root map.now frames.now used }
    requires memory { is_memory_page map.now page ≡ true }
    requires unled { led mem.old root page ≡ None }
    ensures filled { IsFill mem.old mem.new root map.now frames.now page }
    ensures tidy { Tidy mem.new root map.now frames.now result }
    ensures counted { steps.new ≤ steps.old + 5 }
{
    let _bound = mem.frames();
    let own = own_page(map, frames, page);
    let upper = upper_table(mem, root, map, frames, used, page, steps);
    let lower = lower_table(mem, root, map, frames, upper, page, steps);
    write_leaf(mem, root, map, frames, lower, page, own, steps);
    lower.used
}

/// The table of the page's block of 1 GiB.
fn upper_table<L: Ledger>(
    mem: &mut HostMem,
    root: u8,
    map: &RegionMap,
    frames: &[u32],
    used: u64,
    page: u64,
    steps: &mut Steps<L>,
) -> Found
    requires accepted { Accepted map.now }
    requires bounded { length mem.old ≤ 2 ^ 44 }
    requires frames { HasFrames (length mem.old) root map.now frames.now }
    requires tidy { Tidy mem.old root map.now frames.now used }
    requires memory { is_memory_page map.now page ≡ true }
    requires unled { led mem.old root page ≡ None }
    ensures hung { IsHung mem.old mem.new root map.now frames.now 0 (page / 512 / 512) result }
    ensures counted { steps.new ≤ steps.old + 2 }
{
    let tables = tables_of(map, frames);
    table_at(
        mem,
        2048 * root as u64 + page / 512 / 512,
        tables,
        used,
        steps,
    )
}

/// The table of the page's block of 2 MiB, below that of its block of 1 GiB.
fn lower_table<L: Ledger>(
    mem: &mut HostMem,
    root: u8,
    map: &RegionMap,
    frames: &[u32],
    upper: Found,
    page: u64,
    steps: &mut Steps<L>,
) -> Found
    requires accepted { Accepted map.now }
    requires bounded { length mem.old ≤ 2 ^ 44 }
    requires frames { HasFrames (length mem.old) root map.now frames.now }
    requires tidy { Tidy mem.old root map.now frames.now upper.used }
    requires memory { is_memory_page map.now page ≡ true }
    requires unled { led mem.old root page ≡ None }
    requires pointer { entry_for mem.old root 0 (page / 512 / 512) ≡ Pointer upper.table }
    ensures hung { IsHung mem.old mem.new root map.now frames.now 1 (page / 512) result }
    ensures counted { steps.new ≤ steps.old + 2 }
{
    let tables = tables_of(map, frames);
    table_at(
        mem,
        512 * upper.table + page / 512 % 512,
        tables,
        upper.used,
        steps,
    )
}

/// Writes the leaf of a page into the table of its block of 2 MiB.
fn write_leaf<L: Ledger>(
    mem: &mut HostMem,
    root: u8,
    map: &RegionMap,
    frames: &[u32],
    lower: Found,
    page: u64,
    mapping: Mapping,
    steps: &mut Steps<L>,
)
    requires accepted { Accepted map.now }
    requires bounded { length mem.old ≤ 2 ^ 44 }
    requires frames { HasFrames (length mem.old) root map.now frames.now }
    requires tidy { Tidy mem.old root map.now frames.now lower.used }
    requires low { page < 2 ^ 29 }
    requires pointer { entry_for mem.old root 1 (page / 512) ≡ Pointer lower.table }
    requires own { own map.now frames.now page ≡ Some mapping }
    requires fits { mapping.frame < 2 ^ 44 }
    ensures filled { IsFill mem.old mem.new root map.now frames.now page }
    ensures tidy { Tidy mem.new root map.now frames.now lower.used }
    ensures counted { steps.new ≡ steps.old + 1 }
{
    write_entry(
        mem,
        512 * lower.table + page % 512,
        leaf_word(mapping),
        steps,
    );
}

/// The own frame of a page of the guest's memory.
fn own_page(map: &RegionMap, frames: &[u32], page: u64) -> Mapping
    requires enough { length frames.now ≡ need map.now }
    requires memory { is_memory_page map.now page ≡ true }
    ensures own { own map.now frames.now page ≡ Some result }
    ensures low { page < 2 ^ 29 }
    ensures accepted { Accepted map.now }
{
    let _regions = map.regions();
    let Some(own) = own_of(map, frames, page) else {
        unreachable!("a page of memory has a frame");
    };
    own
}

/// The frames of the guest's tables.
fn tables_of<'a>(map: &RegionMap, frames: &'a [u32]) -> &'a [u32]
    requires room { pages_of map.now ≤ length frames.now }
    ensures tables { result.now ≡ table_frames map.now frames.now }
{
    &frames[pages_of(map.regions()) as usize..]
}

/// The table that the entry in a slot names, or else the next of the list, which is hung there.
fn table_at<L: Ledger>(
    mem: &mut HostMem,
    slot: u64,
    tables: &[u32],
    used: u64,
    steps: &mut Steps<L>,
) -> Found
    requires inside { 8 * slot + 8 ≤ length mem.old }
    requires small { slot < 2 ^ 61 }
    requires room { IsNoPointer mem.old slot → used < length tables.now }
    ensures found { IsFound mem.old mem.new slot tables.now used result }
    ensures counted { steps.new ≤ steps.old + 2 }
{
    match entry_in(mem, slot, steps) {
        GEntry::Pointer(table) => Found { table, used },
        GEntry::Page(_) => hang(mem, slot, tables, used, steps),
        GEntry::Nothing => hang(mem, slot, tables, used, steps),
    }
}

fn hang<L: Ledger>(
    mem: &mut HostMem,
    slot: u64,
    tables: &[u32],
    used: u64,
    steps: &mut Steps<L>,
) -> Found
    requires inside { 8 * slot + 8 ≤ length mem.old }
    requires small { slot < 2 ^ 61 }
    requires room { used < length tables.now }
    requires free { IsNoPointer mem.old slot }
    ensures found { IsFound mem.old mem.new slot tables.now used result }
    ensures counted { steps.new ≡ steps.old + 1 }
{
    let table = tables[used as usize] as u64;
    write_entry(mem, slot, 1024 * table + 0x01, steps);
    Found {
        table,
        used: used + 1,
    }
}

/// The entry in a slot of host memory.
#[tactic(auto, unfolding(xv_pte::specs::GStage::word_in))]
fn entry_in<L: Ledger>(mem: &HostMem, slot: u64, steps: &mut Steps<L>) -> GEntry
    requires inside { 8 * slot + 8 ≤ length mem.now }
    requires small { slot < 2 ^ 61 }
    ensures entry { result ≡ stage.entry_in mem.now slot }
    ensures counted { steps.new ≡ steps.old + 1 }
{
    g_entry_of(mem.read64(8 * slot, steps))
}

/// Writes the entry in a slot of host memory.
#[tactic(auto, using(crate::proofs::Writes::wrote))]
fn write_entry<L: Ledger>(mem: &mut HostMem, slot: u64, word: u64, steps: &mut Steps<L>)
    requires inside { 8 * slot + 8 ≤ length mem.old }
    requires small { slot < 2 ^ 61 }
    ensures wrote { Wrote mem.old mem.new slot word }
    ensures counted { steps.new ≡ steps.old + 1 }
{
    mem.write64(8 * slot, word, steps);
}

/// The word of a leaf.
fn leaf_word(mapping: Mapping) -> u64
    requires { mapping.frame < 2 ^ 44 }
    ensures { result ≡ stage.leaf_word mapping }
{
    let low = if mapping.writable { 0xDF } else { 0x5B };
    1024 * mapping.frame + low
}
