//! Walks from a root table over a middle table and a last one.
ghost use Rattle.std.specs.Prelude.{◌≡◌, ◌*◌, ◌<◌, ◌≤◌, length, IfOk};
ghost use Rattle.xv_pte.specs.GStage.{HasTables};
ghost use Rattle.xv_pte.specs.Targets.{HasTargets};

use crate::{GEntry, Leaf, g_entry_of, walk};
use std::alloc::Global;
use std::marker::Brand;
use std::sync::ledger::{Blank, Ledger};
use std::test::Fail;
use xv_mem::{HostMem, NoMemory, Steps};

/// The root table, whose frames are 4 to 7. The middle table is in frame 8, the last in frame 9.
const ROOT: u8 = 1;

/// Words and their slots; all others are 0.
const WORDS: [(u64, u64); 12] = [
    // the root's: a pointer, a leaf, pointers with G and with the bits that software may use, and
    // a pointer in the last entry
    (2048 + 1, (8 << 10) | 0x01),
    (2048 + 2, (0x200 << 10) | 0xDF),
    (2048 + 3, (8 << 10) | 0x21),
    (2048 + 4, (8 << 10) | 0x301),
    (2048 + 2047, (8 << 10) | 0x01),
    // the middle table's: a pointer, and leaves
    (4096, (9 << 10) | 0x01),
    (4096 + 1, (0x200 << 10) | 0xDF),
    (4096 + 2, (0x201 << 10) | 0xDF),
    (4096 + 3, (0x400 << 10) | 0x5B),
    // the last table's: leaves, and a pointer
    (4608, (0x80 << 10) | 0xDF),
    (4608 + 1, (0x81 << 10) | 0x5B),
    (4608 + 511, (8 << 10) | 0x01),
];

/// Where addresses lead: the host address, and whether it is writable.
const ROWS: [(&str, u64, Option<(u64, bool)>); 13] = [
    ("0xDF in a last table", 0x4000_0456, Some((0x8_0456, true))),
    ("0x5B in a last table", 0x4000_1FFF, Some((0x8_1FFF, false))),
    ("no entry in a last table", 0x4000_2000, None),
    ("a pointer in a last table", 0x401F_F000, None),
    (
        "0xDF in a middle table",
        0x4020_3456,
        Some((0x20_3456, true)),
    ),
    ("a frame that is no multiple of 512", 0x4040_0000, None),
    (
        "0x5B in a middle table",
        0x407F_FFFF,
        Some((0x5F_FFFF, false)),
    ),
    ("a leaf in the root", 0x8000_0000, None),
    ("a pointer with G", 0xC000_0456, None),
    (
        "a pointer with bits 9:8",
        0x1_0000_0456,
        Some((0x8_0456, true)),
    ),
    (
        "the last entry of the root",
        0x1FF_C000_1008,
        Some((0x8_1008, false)),
    ),
    ("bit 41", 0x200_4000_0456, None),
    ("bit 63", 0x8000_0000_4000_0456, None),
];

/// Stores a word, unless it has no slot or is a pointer out of the memory.
#[tactic(auto, using(crate::proofs::TestTables::put_targets))]
fn store<L: Ledger>(memory: &mut HostMem, slot: u64, word: u64, steps: &mut Steps<L>)
    requires { HasTargets memory.old }
    ensures targets { HasTargets memory.new }
    ensures len { length memory.new ≡ length memory.old }
{
    let frames = memory.frames() as u64;
    if slot >= 512 * frames {
        return;
    }
    match g_entry_of(word) {
        GEntry::Pointer(table) if table >= frames => {}
        _ => memory.write64(8 * slot, word, steps),
    }
}

/// That many frames of memory, with the words.
#[tactic(auto, using(crate::proofs::TestTables::has_tables_of_targets))]
fn tables<L: Ledger>(alloc: Global, frames: u32, steps: &mut Steps<L>) -> Result<HostMem, NoMemory>
    requires { 10 ≤ frames }
    ensures { IfOk result (λ memory. HasTables memory 1) }
{
    let mut memory = HostMem::zeroed(alloc, frames)?;
    for (slot, word) in WORDS {
        store(&mut memory, slot, word, steps);
    }
    Ok(memory)
}

/// The first row whose address leads elsewhere, if any.
fn wrong_row<L: Ledger>(
    alloc: Global,
    frames: u32,
    blank: Blank,
) -> Result<Option<&'static str>, NoMemory>
    requires frames { 10 ≤ frames }
    requires name { blank.name ≡ L.name }
    requires parts { blank.parts ≡ L.parts }
    requires some { 0 < blank.parts }
{
    let mut steps = Steps::<L>::open(blank);
    let memory = tables(alloc, frames, &mut steps)?;
    for (message, gpa, to) in ROWS {
        let leaf = to.map(|(host, writable)| Leaf { host, writable });
        if walk(&memory, ROOT, gpa, &mut steps) != leaf {
            return Ok(Some(message));
        }
    }
    Ok(None)
}

#[test]
fn walks_of_rows(rt: HostRuntime) -> Result<(), Fail> {
    assert_eq!(rt; wrong_row::<Brand>(rt.alloc(), 10, Blank::new(1))?, None);
    Ok(())
}
