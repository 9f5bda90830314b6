//! What stands behind a region's addresses.
ghost use Rattle.std.specs.Prelude.{◌≡◌, option_copied};
ghost use Rattle.std.specs.List.{list_any};
ghost use Rattle.xv_tree.specs.Regions.{address_or_bad, has_irq, irq_at, irq_in, is_plic, kind_of};
ghost use Rattle.xv_tree.specs.Regions.{shift_in, uart_of};

use crate::fault::PlanKind;
use crate::sort::Sort;
use crate::values::{number_of, value_of, word, word_of};
use xv_fdt::Prop;
use xv_region::{DeviceKind, Kind, Region};

/// What stands behind a region of that sort, whose node has these properties, after the earlier
/// regions.
pub(crate) fn kind_of(earlier: &[Region], props: &[Prop], sort: Sort) -> Result<Kind, PlanKind>
    ensures { result ≡ kind_of earlier.now props.now sort }
{
    match sort {
        Sort::Ram => Ok(Kind::Ram),
        Sort::Rom => Ok(Kind::Rom),
        Sort::Reserved => {
            let host = address_or_bad(number_of(props, b"host_physical_addr"));
            Ok(Kind::Reserved { host })
        }
        Sort::Alias => {
            let target = address_or_bad(number_of(props, b"alias_physical_addr"));
            Ok(Kind::Alias { target })
        }
        Sort::Uart => uart_of(earlier, props),
        Sort::Plic => Ok(Kind::Device(DeviceKind::Plic)),
        Sort::Finisher => Ok(Kind::Device(DeviceKind::Finisher)),
    }
}

/// An address, or one that no rule accepts.
fn address_or_bad(address: Option<u64>) -> u64
    ensures { result ≡ address_or_bad address }
{
    match address {
        Some(address) => address,
        None => 1,
    }
}

fn uart_of(earlier: &[Region], props: &[Prop]) -> Result<Kind, PlanKind>
    ensures { result ≡ uart_of earlier.now props.now }
{
    let Some(shift) = shift_in(value_of(props, b"reg-shift")) else {
        return Err(PlanKind::BadKind);
    };
    let Some(irq) = irq_in(earlier, value_of(props, b"interrupts")) else {
        return Err(PlanKind::BadIrq);
    };
    Ok(Kind::Device(DeviceKind::Uart { shift, irq }))
}

/// A shift of 0 to 2, or none.
fn shift_in(value: Option<&[u8]>) -> Option<u8>
    ensures { result ≡ shift_in (option_copied value.entry) }
{
    let Some(value) = value else {
        return Some(0);
    };
    match word(value) {
        Some(shift) if shift <= 2 => Some(shift as u8),
        _ => None,
    }
}

/// The source of the PLIC that a list of words begins with, or none.
fn irq_in(earlier: &[Region], value: Option<&[u8]>) -> Option<u8>
    ensures { result ≡ irq_in earlier.now (option_copied value.entry) }
{
    let Some(value) = value else {
        return Some(0);
    };
    if value.len() >= 4 && value.len() % 4 == 0 {
        irq_at(earlier, word_of(&value[..4]))
    } else {
        None
    }
}

/// A source that no earlier region has.
fn irq_at(earlier: &[Region], irq: u32) -> Option<u8>
    ensures { result ≡ irq_at earlier.now irq }
{
    if 1 <= irq && irq <= 63 && !is_used(earlier, irq) {
        Some(irq as u8)
    } else {
        None
    }
}

fn is_used(earlier: &[Region], irq: u32) -> bool
    ensures { result ≡ list_any (has_irq irq) earlier.now }
{
    earlier.iter().any(|region| has_irq(region, irq))
}

fn has_irq(region: &Region, irq: u32) -> bool
    ensures { result ≡ has_irq irq region.now }
{
    match region.kind {
        Kind::Ram => false,
        Kind::Rom => false,
        Kind::Reserved { host: _ } => false,
        Kind::Alias { target: _ } => false,
        Kind::Device(
            DeviceKind::Uart {
                shift: _,
                irq: other,
            },
        ) => other as u32 == irq,
        Kind::Device(DeviceKind::Plic) => false,
        Kind::Device(DeviceKind::Finisher) => false,
    }
}

/// Whether there is a PLIC.
pub(crate) fn has_plic(regions: &[Region]) -> bool
    ensures { result ≡ list_any is_plic regions.now }
{
    regions.iter().any(|region| is_plic(region))
}

fn is_plic(region: &Region) -> bool
    ensures { result ≡ is_plic region.now }
{
    match region.kind {
        Kind::Ram => false,
        Kind::Rom => false,
        Kind::Reserved { host: _ } => false,
        Kind::Alias { target: _ } => false,
        Kind::Device(DeviceKind::Uart { shift: _, irq: _ }) => false,
        Kind::Device(DeviceKind::Plic) => true,
        Kind::Device(DeviceKind::Finisher) => false,
    }
}
