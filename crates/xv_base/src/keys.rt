//! Keys of guests, numbers of VCPUs, and ranges of addresses.
ghost use Rattle.std.specs.Prelude.{ℕ, ◌<◌};

use std::marker::Model;

/// The number of a VCPU in its guest, seen by contracts as that number. It is below 8: a literal
/// `VcpuNo(number)` is proved to be so, and whoever reads `.0` knows it.
#[derive(Clone, Copy, Debug, PartialEq, Eq, PartialOrd, Ord, Hash)]
pub struct VcpuNo(pub u8);

impl Model for VcpuNo {
    ghost Value = { ℕ };

    ghost view = { λ vcpu. vcpu.0 };

    ghost invariant = { λ vcpu. vcpu.0 < 8 };

    ghost inverse = { λ number. record { 0 = number } };
}

/// The key of a live guest, which is also the number of its root table and its VMID, seen by
/// contracts as that number. It is below 16: a literal `GuestKey(number)` is proved to be so, and
/// whoever reads `.0` knows it.
#[derive(Clone, Copy, Debug, PartialEq, Eq, PartialOrd, Ord, Hash)]
pub struct GuestKey(pub u8);

impl Model for GuestKey {
    ghost Value = { ℕ };

    ghost view = { λ key. key.0 };

    ghost invariant = { λ key. key.0 < 16 };

    ghost inverse = { λ number. record { 0 = number } };
}

/// The addresses from `start` on, `len` of them. The end may be 2^64 or lie past it: who needs it
/// lower says so.
#[derive(Clone, Copy, Debug, PartialEq, Eq)]
pub struct Span {
    pub start: u64,
    pub len: u64,
}
