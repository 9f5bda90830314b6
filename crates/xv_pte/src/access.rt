//! What a translation depends on, beside memory.

/// What memory is asked for. LR is a load; SC and an AMO are stores.
#[derive(Clone, Copy, Debug, PartialEq, Eq)]
pub enum Kind3 {
    Fetch,
    Load,
    Store,
}

/// What of a hart decides on its accesses.
#[derive(Clone, Copy)]
pub struct View {
    /// satp, whose MODE is 0 or 8.
    pub satp: u64,
    /// Mode U where true, mode S where false.
    pub user: bool,
    /// SUM of sstatus.
    pub sum: bool,
    /// MXR of sstatus.
    pub mxr: bool,
}
