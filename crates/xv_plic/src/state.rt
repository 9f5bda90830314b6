//! The registers as plain data.

/// The registers of a PLIC. Masks have bit k for source k; priorities and thresholds are below 8.
/// Place 0 of `priority`, bit 0 of the masks, and the places of contexts that aren't there are 0.
#[derive(Clone, Copy, Debug, PartialEq, Eq)]
pub struct PlicState {
    pub priority: [u8; 64],
    pub pending: u64,
    pub in_service: u64,
    pub enables: [u64; 8],
    pub threshold: [u8; 8],
}
