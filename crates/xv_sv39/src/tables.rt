//! The walk of the tables, from level 2 down to level 0.
ghost use Rattle.std.specs.Prelude.{◌≡◌, ◌<◌, ◌%◌, ◌^◌, []};
ghost use Rattle.xv_pte.specs.Sv39 as sv39;
ghost use Rattle.xv_sv39.specs.Translate.{end_of, IsLeaf};

use crate::leaf::{Leaf, page_bits};
use crate::words::Words;
use xv_pte::{Kind, kind_of};

/// Why an address has no translation.
#[derive(Clone, Copy, Debug, PartialEq, Eq)]
pub enum WalkFault {
    /// A page fault.
    Page,
    /// The reader has no word at the address of an entry.
    Entry { gpa: u64 },
}

/// The walk of a virtual address from the root table, by its page number.
pub fn walk<R: Words>(reader: &mut R, root: u64, va: u64) -> Result<Leaf, WalkFault>
    requires empty { R.addresses reader.old ≡ [] }
    requires root { root < 2 ^ 44 }
    ensures end { (sv39.path (R.table reader.old) va 3 root).end ≡ end_of result }
    ensures leaf { IsLeaf result }
    ensures addresses { R.addresses reader.new
        ≡ (sv39.path (R.table reader.old) va 3 root).addresses }
    ensures table { R.table reader.new ≡ R.table reader.old }
    ensures rule { (start : _) → R.rule start reader.old → R.rule start reader.new }
{
    let mut page = root;
    let mut level = 3;
    while 0 < level {
        level -= 1;
        let gpa = entry_address(page, level, va);
        let Some(entry) = reader.word(gpa) else {
            return Err(WalkFault::Entry { gpa });
        };
        match kind_of(entry) {
            Kind::Broken => return Err(WalkFault::Page),
            Kind::Leaf => return Ok(Leaf { level, entry }),
            Kind::Pointer(next) => page = next,
        }
    }
    Err(WalkFault::Page)
}

/// Where the entry for a virtual address stands in the table of this page number and level.
fn entry_address(page: u64, level: u32, va: u64) -> u64
    requires page { page < 2 ^ 44 }
    requires level { level < 3 }
    ensures address { result ≡ sv39.entry_address page level va }
    ensures aligned { result % 8 ≡ 0 }
{
    page * 4096 + 8 * ((va >> page_bits(level)) % 512)
}
