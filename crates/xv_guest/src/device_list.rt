//! The devices of a guest, one for each region: their birth, their reset, and the gateways' step.
ghost use Rattle.std.specs.Prelude.{◌≡◌, ◌<◌, ◌≤◌, length, false, map, vec_len, IfOk, IsTrue};
ghost use Rattle.std.specs.List.{position};
ghost use Rattle.xv_base.specs.Bits.{has_bit};
ghost use Rattle.xv_region.specs.Rules.{are_sound, is_sound_kind};
ghost use Rattle.xv_lone.specs.Device.{after_gateways, device_reset, lifted_by, new_devices};
ghost use Rattle.xv_lone.specs.Device as lines;
ghost use Rattle.xv_guest.specs.Devices as shapes;
ghost use Rattle.xv_guest.specs.Devices.{has_plic};

use crate::device::RegionDevice;
use std::alloc::Global;
use xv_base::NoMemory;
use xv_bus::Device;
use xv_region::{DeviceKind, Kind, Plan, Region};

/// One for each region of the plan, after a reset.
pub(crate) fn make_all(alloc: Global, plan: &Plan) -> Result<Vec<RegionDevice>, NoMemory>
    requires sound { IsTrue (are_sound plan.now.regions) }
    requires vcpus { length plan.now.vcpus ≤ 8 }
    ensures { IfOk result (λ devices. devices.items ≡ new_devices plan.now) }
{
    let regions: &[Region] = &plan.regions;
    let contexts = plan.vcpus.len() as u8;
    let mut devices = Vec::with_capacity(alloc, regions.len())?;
    for region in regions {
        let device = RegionDevice::make(alloc, region.kind, contexts)?;
        devices.push(device)?;
    }
    Ok(devices)
}

/// Resets each.
pub(crate) fn reset_all(devices: &mut Vec<RegionDevice>)
    ensures { devices.new.items ≡ map device_reset devices.old.items }
{
    for number in 0..devices.len() {
        devices[number].reset();
    }
}

/// The lines as they are come to the interrupt controller.
pub(crate) fn step_gateways(regions: &[Region], devices: &mut Vec<RegionDevice>)
    requires sound { IsTrue (are_sound regions.now) }
    requires each { vec_len devices.old ≡ length regions.now }
    ensures { devices.new.items ≡ after_gateways regions.now devices.old.items }
{
    let sources = sources_up(regions, devices);
    lift_all(devices, sources);
}

fn lift_all(devices: &mut Vec<RegionDevice>, sources: u64)
    requires { has_bit 0 sources ≡ false }
    ensures { devices.new.items ≡ map (lifted_by sources) devices.old.items }
{
    for number in 0..devices.len() {
        devices[number].lift(sources);
    }
}

/// The sources of the interrupt controller whose lines are up, bit k for source k.
fn sources_up(regions: &[Region], devices: &[RegionDevice]) -> u64
    requires sound { IsTrue (are_sound regions.now) }
    requires each { length devices.now ≡ length regions.now }
    ensures sources { result ≡ lines.sources_up regions.now devices.now }
    ensures no_source { has_bit 0 result ≡ false }
{
    let mut sources = 0;
    let mut left = regions.len();
    while left > 0 {
        left -= 1;
        let source = source_of(regions[left].kind);
        sources = with_source(source, devices[left].line(), sources);
    }
    sources
}

/// The source that is the line of a region's device; 0 is none.
fn source_of(kind: Kind) -> u8
    requires { IsTrue (is_sound_kind kind) }
    ensures source { result ≡ lines.source_of kind }
    ensures few { result < 64 }
{
    match kind {
        Kind::Device(DeviceKind::Uart { shift: _, irq }) => irq,
        Kind::Device(DeviceKind::Plic) => 0,
        Kind::Device(DeviceKind::Finisher) => 0,
        Kind::Ram | Kind::Rom => 0,
        Kind::Reserved { host: _ } => 0,
        Kind::Alias { target: _ } => 0,
    }
}

fn with_source(source: u8, is_up: bool, sources: u64) -> u64
    requires { source < 64 }
    ensures { result ≡ lines.with_source source is_up sources }
{
    if is_up && source != 0 {
        sources | 1 << source
    } else {
        sources
    }
}

/// The number of the first region that is an interrupt controller's.
pub(crate) fn controller_of(regions: &[Region]) -> Option<usize>
    ensures { result ≡ position has_plic regions.now }
{
    regions.iter().position(|region| is_plic(region.kind))
}

fn is_plic(kind: Kind) -> bool
    ensures { result ≡ shapes.is_plic kind }
{
    match kind {
        Kind::Device(DeviceKind::Plic) => true,
        Kind::Device(DeviceKind::Uart { shift: _, irq: _ }) => false,
        Kind::Device(DeviceKind::Finisher) => false,
        Kind::Ram | Kind::Rom => false,
        Kind::Reserved { host: _ } => false,
        Kind::Alias { target: _ } => false,
    }
}
