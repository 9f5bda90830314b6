//! What a guest is made of.
use std::marker::Model;
use xv_base::DevName;

/// A device that xv emulates.
#[derive(Clone, Copy, Debug, PartialEq, Eq)]
pub enum DeviceKind {
    /// A 16550 whose registers stand 2^shift bytes apart, with `shift` 0 to 2. Its line is the
    /// PLIC's source `irq`, 1 to 63, or none where that is 0.
    Uart { shift: u8, irq: u8 },
    /// The interrupt controller (RISC-V Platform-Level Interrupt Controller 1.0.0).
    Plic,
    /// What ends or reboots the guest.
    Finisher,
}

/// What stands behind a region's addresses.
#[derive(Clone, Copy, Debug, PartialEq, Eq)]
pub enum Kind {
    /// Memory of the guest's own.
    Ram,
    /// Memory of the guest's own that it can't write.
    Rom,
    /// The memory of the host from that address on, which lies in the reserved area.
    Reserved { host: u64 },
    /// The guest's memory from that guest physical address on, under other addresses.
    Alias { target: u64 },
    /// The registers of a device.
    Device(DeviceKind),
}

/// The guest physical addresses from `base` on, `size` bytes of them, and what stands behind them.
/// The name is that of the node that describes it.
#[derive(Clone, Copy, Debug)]
pub struct Region {
    pub name: DevName,
    pub base: u64,
    pub size: u64,
    pub kind: Kind,
}

/// Where a VCPU starts, and how urgent it is, 0 to 7.
#[derive(Clone, Copy, Debug, PartialEq, Eq)]
pub struct VcpuPlan {
    pub start: u64,
    pub priority: u8,
}

/// The regions and the VCPUs of a guest, both in their nodes' order. Contracts see two lists.
#[derive(Debug, Drop)]
pub struct Plan {
    pub regions: Vec<Region>,
    pub vcpus: Vec<VcpuPlan>,
}

impl Model for Plan {
    ghost use Rattle.xv_region.specs.Plan.{Plan};

    ghost Value = { Plan };

    ghost view = { λ plan. record { regions = plan.regions.items; vcpus = plan.vcpus.items } };
}
