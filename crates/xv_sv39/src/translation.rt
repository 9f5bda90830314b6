//! The translation of one access.
ghost use Rattle.std.specs.Prelude.{◌≡◌, ◌⊎◌, ◌/◌, ◌^◌, ◌<◌, ◌≤◌, [], length};
ghost use Rattle.xv_pte.specs.Sv39 as sv39;
ghost use Rattle.xv_sv39.specs.Translate.{verdict_of, view_of};

use crate::leaf::Leaf;
use crate::tables::{WalkFault, walk};
use crate::words::Words;
use xv_pte::{Kind3, View};

/// The guest physical address of a virtual one, for an access in a mode, with SUM and MXR of
/// sstatus.
///
/// # Errors
///
/// `Page` is a page fault; `Entry` says where the reader has no word for an entry that is needed.
pub fn translate<R: Words>(
    reader: &mut R,
    satp: u64,
    va: u64,
    access: Kind3,
    user: bool,
    sum: bool,
    mxr: bool,
) -> Result<u64, WalkFault>
    requires empty { R.addresses reader.old ≡ [] }
    requires mode { (satp / 2 ^ 60 ≡ 0) ⊎ (satp / 2 ^ 60 ≡ 8) }
    ensures verdict { verdict_of result
        ≡ sv39.verdict (R.table reader.old) (view_of satp user sum mxr) va access }
    ensures addresses { R.addresses reader.new
        ≡ sv39.entry_addresses (R.table reader.old) (view_of satp user sum mxr) va }
    ensures few { length (R.addresses reader.new) ≤ 3 }
    ensures table { R.table reader.new ≡ R.table reader.old }
    ensures rule { (start : _) → R.rule start reader.old → R.rule start reader.new }
{
    if satp >> 60 == 0 {
        return Ok(va);
    }
    if !is_canonical(va) {
        return Err(WalkFault::Page);
    }
    let view = View {
        satp,
        user,
        sum,
        mxr,
    };
    match walk(reader, satp % (1 << 44), va) {
        Ok(leaf) => leaf_verdict(&view, va, access, &leaf),
        Err(fault) => Err(fault),
    }
}

fn leaf_verdict(view: &View, va: u64, access: Kind3, leaf: &Leaf) -> Result<u64, WalkFault>
    requires { leaf.now.level < 3 }
    ensures { verdict_of result
        ≡ sv39.end_verdict view.now va access (sv39.Found leaf.now.level leaf.now.entry) }
{
    if leaf.admits(access, view) {
        Ok(leaf.address(va))
    } else {
        Err(WalkFault::Page)
    }
}

/// Bits 63:39 equal bit 38.
fn is_canonical(va: u64) -> bool
    ensures { result ≡ sv39.is_canonical va }
{
    let high = va >> 38;
    high == 0 || high == (1 << 26) - 1
}
