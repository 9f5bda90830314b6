//! The fields of an entry of a page table (Privileged Architecture 20211203, section 4.4.1).
ghost use Rattle.std.specs.Prelude.{◌≡◌};
ghost use Rattle.xv_pte.specs.Entry as entries;

use xv_base::has_bit;

/// What an entry is, wherever it stands.
#[derive(Clone, Copy, Debug, PartialEq, Eq)]
pub enum Kind {
    /// No translation goes over it.
    Broken,
    /// It names the table of the next level by its page number, which is below 2^44.
    Pointer(u64),
    /// It maps a page.
    Leaf,
}

/// What the entry is.
#[tactic(auto, unfolding(crate::specs::Entry::kind_of))]
pub fn kind_of(entry: u64) -> Kind
    ensures kind { result ≡ entries.kind_of entry }
    ensures page { entries.NamesPage result }
{
    if is_broken(entry) {
        Kind::Broken
    } else if is_pointer(entry) {
        pointer(entry)
    } else {
        Kind::Leaf
    }
}

/// Bits 53:10.
pub fn page_number(entry: u64) -> u64
    ensures { result ≡ entries.page_number entry }
{
    (entry >> 10) % (1 << 44)
}

/// R.
pub fn is_readable(entry: u64) -> bool
    ensures { result ≡ entries.is_readable entry }
{
    has_bit(entry, 1)
}

/// W.
pub fn is_writable(entry: u64) -> bool
    ensures { result ≡ entries.is_writable entry }
{
    has_bit(entry, 2)
}

/// X.
pub fn is_executable(entry: u64) -> bool
    ensures { result ≡ entries.is_executable entry }
{
    has_bit(entry, 3)
}

/// U.
pub fn is_users(entry: u64) -> bool
    ensures { result ≡ entries.is_users entry }
{
    has_bit(entry, 4)
}

/// A.
pub fn is_accessed(entry: u64) -> bool
    ensures { result ≡ entries.is_accessed entry }
{
    has_bit(entry, 6)
}

/// D.
pub fn is_dirty(entry: u64) -> bool
    ensures { result ≡ entries.is_dirty entry }
{
    has_bit(entry, 7)
}

fn is_broken(entry: u64) -> bool
    ensures { result ≡ entries.is_broken entry }
{
    !has_bit(entry, 0) || entry >> 54 != 0 || (is_writable(entry) && !is_readable(entry))
}

fn is_pointer(entry: u64) -> bool
    ensures { result ≡ entries.is_pointer entry }
{
    !is_readable(entry) && !is_writable(entry) && !is_executable(entry)
}

/// An entry with R, W and X 0: a pointer, unless A, D or U is set.
fn pointer(entry: u64) -> Kind
    ensures kind { result ≡ entries.pointer entry }
    ensures page { entries.NamesPage result }
{
    if is_accessed(entry) || is_dirty(entry) || is_users(entry) {
        Kind::Broken
    } else {
        Kind::Pointer(page_number(entry))
    }
}
