//! Which sort of region a node describes.
ghost use Rattle.std.specs.Prelude.{◌≡◌, ◌<◌, IfOk, map, option_copied};
ghost use Rattle.xv_tree.specs.Fault.{Gives, fault_at};
ghost use Rattle.xv_tree.specs.Regions.{device_sort, first_known, manifest_of, memory_sort};
ghost use Rattle.xv_tree.specs.Regions.{real_sort, sort_by, sort_of, unit_of, virtual_sort};
ghost use Rattle.xv_tree.specs.Values.{texts};

use crate::fault::{PlanFault, PlanKind};
use crate::values::{text, value_of};
use std::alloc::{AllocError, Global};
use xv_fdt::Prop;

/// A sort of region.
#[derive(Clone, Copy, Debug)]
pub(crate) enum Sort {
    Ram,
    Rom,
    Reserved,
    Alias,
    Uart,
    Plic,
    Finisher,
}

/// What a `manifest_type` says.
#[derive(Clone, Copy, Debug)]
pub(crate) enum Manifest {
    Real,
    Virtual,
    Alias,
}

/// The sort of the region that node `number` with these properties describes, or None where it is
/// skipped.
#[tactic(auto, unfolding(crate::specs::Regions::sort_of))]
pub(crate) fn sort_of(alloc: Global, props: &[Prop], number: u32) -> Result<Option<Sort>, PlanFault>
    ensures exact { Gives (λ sort. sort) result (fault_at number (sort_of props.now)) }
{
    match value_of(props, b"manifest_type") {
        Some(value) => sort_by(alloc, props, manifest_of(text(value)), number),
        None => Ok(None),
    }
}

fn manifest_of(name: &[u8]) -> Option<Manifest>
    ensures { result ≡ manifest_of name.now }
{
    if name == b"real".as_slice() {
        Some(Manifest::Real)
    } else if name == b"virtual".as_slice() {
        Some(Manifest::Virtual)
    } else if name == b"alias".as_slice() {
        Some(Manifest::Alias)
    } else {
        None
    }
}

/// The same, of such a node.
fn sort_by(
    alloc: Global,
    props: &[Prop],
    manifest: Option<Manifest>,
    number: u32,
) -> Result<Option<Sort>, PlanFault>
    ensures exact { Gives (λ sort. sort) result (fault_at number (sort_by props.now manifest)) }
{
    match manifest {
        Some(Manifest::Real) => match real_sort(props) {
            Some(sort) => Ok(Some(sort)),
            None => Err(PlanFault::At {
                kind: PlanKind::BadKind,
                node: number,
            }),
        },
        Some(Manifest::Virtual) => match virtual_sort(alloc, props) {
            Ok(sort) => Ok(sort),
            Err(_) => Err(PlanFault::NoMemory),
        },
        Some(Manifest::Alias) => Ok(Some(Sort::Alias)),
        None => Err(PlanFault::At {
            kind: PlanKind::BadManifest,
            node: number,
        }),
    }
}

/// The sort of a real region.
fn real_sort(props: &[Prop]) -> Option<Sort>
    ensures { result ≡ real_sort props.now }
{
    match value_of(props, b"device_type") {
        Some(value) => memory_sort(text(value)),
        None => None,
    }
}

/// The memory that a `device_type` names.
fn memory_sort(name: &[u8]) -> Option<Sort>
    ensures { result ≡ memory_sort name.now }
{
    if name == b"alloced_ram".as_slice() {
        Some(Sort::Ram)
    } else if name == b"alloced_rom".as_slice() {
        Some(Sort::Rom)
    } else if name == b"reserved_ram".as_slice() {
        Some(Sort::Reserved)
    } else {
        None
    }
}

/// The sort of a virtual region: the first known word of `compatible`.
fn virtual_sort(alloc: Global, props: &[Prop]) -> Result<Option<Sort>, AllocError>
    ensures { IfOk result (λ sort. sort ≡ virtual_sort props.now) }
{
    let Some(value) = value_of(props, b"compatible") else {
        return Ok(None);
    };
    let names = texts_of(alloc, value)?;
    Ok(first_known(&names))
}

/// The first of the words that names a device.
fn first_known(names: &[&[u8]]) -> Option<Sort>
    ensures { result ≡ first_known (map (λ name. name.now) names.now) }
{
    for name in names {
        if let Some(sort) = device_sort(name) {
            return Some(sort);
        }
    }
    None
}

/// The texts of a value, one after another.
fn texts_of<'a>(alloc: Global, value: &'a [u8]) -> Result<Vec<&'a [u8]>, AllocError>
    ensures { IfOk result (λ all. map (λ name. name.now) all.items ≡ texts value.now) }
{
    value.split(|byte| *byte == 0).collect(alloc)
}

/// The device that a word of `compatible` names.
fn device_sort(name: &[u8]) -> Option<Sort>
    ensures { result ≡ device_sort name.now }
{
    if name == b"ns16550a".as_slice() {
        Some(Sort::Uart)
    } else if name == b"ns16550".as_slice() {
        Some(Sort::Uart)
    } else if name == b"sifive,plic-1.0.0".as_slice() {
        Some(Sort::Plic)
    } else if name == b"riscv,plic0".as_slice() {
        Some(Sort::Plic)
    } else if name == b"sifive,test0".as_slice() {
        Some(Sort::Finisher)
    } else if name == b"sifive,test1".as_slice() {
        Some(Sort::Finisher)
    } else {
        None
    }
}

/// What the bounds of such a region are multiples of, in bytes.
pub(crate) fn unit_of(sort: Sort) -> u64
    ensures unit { result ≡ unit_of sort }
    ensures positive { 0 < result }
{
    match sort {
        Sort::Ram => 4096,
        Sort::Rom => 4096,
        Sort::Reserved => 4096,
        Sort::Alias => 4096,
        Sort::Uart => 8,
        Sort::Plic => 8,
        Sort::Finisher => 8,
    }
}
