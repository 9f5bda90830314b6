//! What can't be had.

/// Why a pool refuses.
#[derive(Clone, Copy, Debug, PartialEq, Eq)]
pub enum PoolFault {
    /// All 16 root tables are out.
    NoRoot,
    /// More frames are needed than are free.
    NoFrame { need: u64, free: u64 },
    /// The range shares a byte with one that is held.
    ReservedBusy,
}
