//! Entries of the tables that lead guest physical addresses to host memory (Privileged Architecture
//! 20211203, sections 8.5.1 and 4.4.1).
ghost use Rattle.std.specs.Prelude.{◌≡◌};
ghost use Rattle.xv_pte.specs.GStage as stage;

use crate::entry::page_number;

/// The frame that a page is led to.
#[derive(Clone, Copy)]
pub struct Mapping {
    /// Its number: host address / 4,096.
    pub frame: u64,
    /// Whether the guest may write there.
    pub writable: bool,
}

/// What an entry is, in the root table, a middle one or a last one. Frame numbers are below 2^44.
#[derive(Clone, Copy)]
pub enum GEntry {
    /// It names the table of the next level by its frame.
    Pointer(u64),
    /// It is a leaf: of one page in a last table, of 512 pages in a middle one.
    Page(Mapping),
    /// It leads nowhere.
    Nothing,
}

/// What the entry is.
#[tactic(auto, unfolding(crate::specs::GStage::entry_of))]
pub fn g_entry_of(word: u64) -> GEntry
    ensures entry { result ≡ stage.entry_of word }
    ensures frame { stage.NamesFrame result }
{
    let frame = page_number(word);
    match word % 256 {
        0x01 => GEntry::Pointer(frame),
        0xDF => GEntry::Page(Mapping {
            frame,
            writable: true,
        }),
        0x5B => GEntry::Page(Mapping {
            frame,
            writable: false,
        }),
        _ => GEntry::Nothing,
    }
}
