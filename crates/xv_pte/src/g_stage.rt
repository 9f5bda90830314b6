//! The walk of a guest physical address through tables in host memory (Privileged Architecture
//! 20211203, section 8.5.1, Sv39x4).
ghost use Rattle.std.specs.Prelude.{◌≡◌, ℕ, ◌+◌, ◌*◌, ◌^◌, ◌<◌, ◌≤◌, length, IfSome};
ghost use Rattle.xv_pte.specs.declared.g_entry.GEntry.TheVariants.{Pointer};
ghost use Rattle.xv_pte.specs.GStage as stage;

use crate::g_entry::{GEntry, Mapping, g_entry_of};
use std::sync::ledger::Ledger;
use xv_mem::{HostMem, Steps};

/// Where a guest physical address leads.
#[derive(Clone, Copy, Debug, PartialEq, Eq)]
pub struct Leaf {
    /// The host address.
    pub host: u64,
    /// Whether the guest may write there.
    pub writable: bool,
}

/// The leaf that the tables of a root lead a guest physical address to, or none. The tables are to
/// lie in the memory. The root's frames are the four from frame 4 * `root` on.
pub fn walk<L: Ledger>(mem: &HostMem, root: u8, gpa: u64, steps: &mut Steps<L>) -> Option<Leaf>
    requires { stage.HasTables mem.now root }
    ensures leaf { result ≡ stage.walked mem.now root gpa }
    ensures counted { steps.new ≤ steps.old + 3 }
{
    let mapping = lead(mem, root, gpa / 4096, steps)?;
    Some(Leaf {
        host: 4096 * mapping.frame + gpa % 4096,
        writable: mapping.writable,
    })
}

/// The frame that a page is led to, from the root on.
#[tactic(auto, using(crate::proofs::WalkTables::inside), unfolding(crate::specs::GStage::led))]
fn lead<L: Ledger>(mem: &HostMem, root: u8, page: u64, steps: &mut Steps<L>) -> Option<Mapping>
    requires { stage.HasTables mem.now root }
    ensures led { result ≡ stage.led mem.now root page }
    ensures frame { IfSome result (λ mapping. mapping.frame < 2 ^ 44) }
    ensures counted { steps.new ≤ steps.old + 3 }
{
    if page >= 1 << 29 {
        return None;
    }
    match entry_in(mem, 2048 * root as u64 + (page >> 18), steps) {
        GEntry::Pointer(table) => from_middle(mem, table, page, steps),
        GEntry::Page(_) | GEntry::Nothing => None,
    }
}

fn from_middle<L: Ledger>(
    mem: &HostMem,
    table: u64,
    page: u64,
    steps: &mut Steps<L>,
) -> Option<Mapping>
    requires inside { 4096 * table + 4096 ≤ length mem.now }
    requires below { (last : ℕ)
        → stage.entry_in mem.now (stage.middle_slot table page) ≡ Pointer last
        → 4096 * last + 4096 ≤ length mem.now }
    requires small { table < 2 ^ 44 }
    ensures led { result ≡ stage.at_middle mem.now page
        (stage.entry_in mem.now (stage.middle_slot table page)) }
    ensures frame { IfSome result (λ mapping. mapping.frame < 2 ^ 44) }
    ensures counted { steps.new ≤ steps.old + 2 }
{
    match entry_in(mem, 512 * table + (page >> 9) % 512, steps) {
        GEntry::Pointer(last) => from_last(mem, last, page, steps),
        GEntry::Page(mapping) => in_block(page, mapping),
        GEntry::Nothing => None,
    }
}

fn from_last<L: Ledger>(
    mem: &HostMem,
    table: u64,
    page: u64,
    steps: &mut Steps<L>,
) -> Option<Mapping>
    requires inside { 4096 * table + 4096 ≤ length mem.now }
    requires small { table < 2 ^ 44 }
    ensures led { result ≡ stage.at_last (stage.entry_in mem.now (stage.last_slot table page)) }
    ensures frame { IfSome result (λ mapping. mapping.frame < 2 ^ 44) }
    ensures counted { steps.new ≤ steps.old + 1 }
{
    match entry_in(mem, 512 * table + page % 512, steps) {
        GEntry::Page(mapping) => Some(mapping),
        GEntry::Pointer(_) | GEntry::Nothing => None,
    }
}

/// The frame of one of the 512 pages of a leaf in a middle table.
fn in_block(page: u64, mapping: Mapping) -> Option<Mapping>
    requires { mapping.frame < 2 ^ 44 }
    ensures led { result ≡ stage.in_block page mapping }
    ensures frame { IfSome result (λ led. led.frame < 2 ^ 44) }
{
    if mapping.frame % 512 != 0 {
        return None;
    }
    Some(Mapping {
        frame: mapping.frame + page % 512,
        writable: mapping.writable,
    })
}

/// The entry in a slot of host memory.
#[tactic(auto, unfolding(crate::specs::GStage::word_in))]
fn entry_in<L: Ledger>(mem: &HostMem, slot: u64, steps: &mut Steps<L>) -> GEntry
    requires inside { 8 * slot + 8 ≤ length mem.now }
    requires small { slot < 2 ^ 61 }
    ensures entry { result ≡ stage.entry_in mem.now slot }
    ensures frame { stage.NamesFrame result }
    ensures counted { steps.new ≡ steps.old + 1 }
{
    g_entry_of(mem.read64(8 * slot, steps))
}
