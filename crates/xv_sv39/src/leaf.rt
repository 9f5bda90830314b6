//! What a leaf permits, and where it leads.
ghost use Rattle.std.specs.Prelude.{◌≡◌, ◌<◌, ◌≤◌};
ghost use Rattle.xv_pte.specs.Sv39 as sv39;
ghost use Rattle.xv_sv39.specs.Translate.{admits, is_data_of};

use xv_pte::{
    Kind3, View, is_accessed, is_dirty, is_executable, is_readable, is_users, is_writable,
    page_number,
};

/// The leaf at which a walk ends, and its level, 0 to 2.
#[derive(Clone, Copy)]
pub struct Leaf {
    pub level: u32,
    pub entry: u64,
}

impl Leaf {
    /// Whether the access may use the leaf.
    pub fn admits(&self, access: Kind3, view: &View) -> bool
        requires { self.now.level < 3 }
        ensures { result ≡ admits view.now access self.now.level self.now.entry }
    {
        self.is_aligned() && is_marked(access, self.entry) && is_permitted(access, view, self.entry)
    }

    /// Where the virtual address leads.
    pub fn address(&self, va: u64) -> u64
        requires { self.now.level < 3 }
        ensures { result ≡ sv39.leaf_address self.now.level self.now.entry va }
    {
        page_number(self.entry) * 4096 + va % (1 << page_bits(self.level))
    }

    /// The page number is a multiple of the pages that the leaf maps.
    fn is_aligned(&self) -> bool
        requires { self.now.level < 3 }
        ensures { result ≡ sv39.is_aligned self.now.level self.now.entry }
    {
        page_number(self.entry) % (1 << (9 * self.level)) == 0
    }
}

/// The bits of the offset in a leaf of this level.
pub fn page_bits(level: u32) -> u32
    requires { level < 3 }
    ensures { result ≡ sv39.page_bits level }
{
    12 + 9 * level
}

/// A and D stand as the access would set them.
fn is_marked(access: Kind3, entry: u64) -> bool
    ensures { result ≡ sv39.is_marked access entry }
{
    match access {
        Kind3::Fetch | Kind3::Load => is_accessed(entry),
        Kind3::Store => is_accessed(entry) && is_dirty(entry),
    }
}

fn is_permitted(access: Kind3, view: &View, entry: u64) -> bool
    ensures { result ≡ sv39.is_permitted access view.now.user view.now entry }
{
    match access {
        Kind3::Fetch => is_executable(entry) && is_users(entry) == view.user,
        Kind3::Load => {
            (is_readable(entry) || (view.mxr && is_executable(entry))) && is_data_of(view, entry)
        }
        Kind3::Store => is_writable(entry) && is_data_of(view, entry),
    }
}

/// U may use its own pages, S the others, and U's where SUM is set.
fn is_data_of(view: &View, entry: u64) -> bool
    ensures { result ≡ is_data_of view.now entry }
{
    if view.user {
        is_users(entry)
    } else {
        !is_users(entry) || view.sum
    }
}
