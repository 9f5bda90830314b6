//! The regions that a tree describes, each by itself.
ghost use Rattle.std.specs.Prelude.{◌≡◌, ◌<◌, ◌^◌, Ok, codes, drop, length};
ghost use Rattle.std.specs.Prelude.{IfErr, IfSome, IsTrue, OnOk};
ghost use Rattle.xv_base.specs.Name.{is_dev_name};
ghost use Rattle.xv_fdt.specs.Shape.{AreInner};
ghost use Rattle.xv_tree.specs.Children.{children};
ghost use Rattle.xv_tree.specs.Fault.{Fails, Gives, in_turn};
ghost use Rattle.xv_tree.specs.Regions.{base_in, is_second, nothing_kept, region_at, region_from};
ghost use Rattle.xv_tree.specs.Regions.{region_of, size_in, unit_of, with_node};
ghost use Rattle.xv_tree.specs.Values.{number_of};
ghost use Rattle.xv_tree.specs.Seen.{seen};

use crate::fault::{PlanFault, PlanKind};
use crate::kind::{has_plic, kind_of};
use crate::sort::{Sort, sort_of, unit_of};
use crate::values::number_of;
use std::alloc::Global;
use xv_base::{DevName, dev_name_of};
use xv_fdt::Node;
use xv_region::Region;

/// The most regions of a guest.
const MOST_REGIONS: usize = 32;

/// The first address past all others.
const ADDRESS_END: u64 = 1 << 41;

/// The regions that are kept, and the number of the node of each.
#[derive(Drop)]
pub(crate) struct Kept {
    pub(crate) regions: Vec<Region>,
    pub(crate) nodes: Vec<u32>,
}

/// The regions that the children of the node `parent` describe.
pub(crate) fn regions_of(alloc: Global, nodes: &[Node], parent: u32) -> Result<Kept, PlanFault>
    requires few { length nodes.now < 2 ^ 32 }
    requires shaped { AreInner 1 (drop 1 nodes.now) }
    ensures exact { Gives seen result
        (in_turn with_node nothing_kept (children parent nodes.now)) }
{
    let mut kept = Kept {
        regions: Vec::new(alloc),
        nodes: Vec::new(alloc),
    };
    for number in 1..nodes.len() {
        let node = &nodes[number];
        if node.parent != parent {
            continue;
        }
        if let Err(fault) = add_node(alloc, &mut kept, node, number as u32) {
            return Err(fault);
        }
    }
    Ok(kept)
}

/// Adds the region that a node describes, if it isn't skipped.
fn add_node(alloc: Global, kept: &mut Kept, node: &Node, number: u32) -> Result<(), PlanFault>
    requires named { IsTrue (is_dev_name node.now.name) }
    ensures added { OnOk result
        (with_node (seen kept.old) (number, node.now) ≡ Ok (seen kept.new)) }
    ensures fault { IfErr result
        (λ fault. Fails fault (with_node (seen kept.old) (number, node.now))) }
{
    let sort = match sort_of(alloc, &node.props, number) {
        Ok(Some(sort)) => sort,
        Ok(None) => return Ok(()),
        Err(fault) => return Err(fault),
    };
    match region_of(&kept.regions, node, sort) {
        Ok(region) => {
            kept.regions.push(region)?;
            kept.nodes.push(number)?;
            Ok(())
        }
        Err(kind) => Err(PlanFault::At { kind, node: number }),
    }
}

/// The region of that sort that a node describes, after the earlier ones.
#[tactic(auto, unfolding(crate::specs::Regions::region_of))]
fn region_of(earlier: &[Region], node: &Node, sort: Sort) -> Result<Region, PlanKind>
    requires named { IsTrue (is_dev_name node.now.name) }
    ensures region { result ≡ region_of earlier.now node.now sort }
{
    if is_second(earlier, sort) {
        return Err(PlanKind::BadKind);
    }
    if earlier.len() >= MOST_REGIONS {
        return Err(PlanKind::TooManyRegions);
    }
    region_at(earlier, node, sort)
}

/// Where that region lies, and what stands behind it.
fn region_at(earlier: &[Region], node: &Node, sort: Sort) -> Result<Region, PlanKind>
    requires named { IsTrue (is_dev_name node.now.name) }
    ensures region { result ≡ region_at earlier.now node.now sort }
{
    match base_of(node, sort) {
        Some(base) => region_from(earlier, node, sort, base),
        None => Err(PlanKind::BadAddress),
    }
}

/// The region that begins there.
fn region_from(earlier: &[Region], node: &Node, sort: Sort, base: u64) -> Result<Region, PlanKind>
    requires named { IsTrue (is_dev_name node.now.name) }
    requires below { base < 2 ^ 41 }
    ensures region { result ≡ region_from earlier.now node.now sort base }
{
    let name = name_of(node);
    let Some(size) = size_of(node, sort, base) else {
        return Err(PlanKind::BadSize);
    };
    match kind_of(earlier, &node.props, sort) {
        Ok(kind) => Ok(Region {
            name,
            base,
            size,
            kind,
        }),
        Err(kind) => Err(kind),
    }
}

fn name_of(node: &Node) -> DevName
    requires named { IsTrue (is_dev_name node.now.name) }
    ensures name { result ≡ node.now.name }
{
    let Some(name) = dev_name_of(node.name.bytes()) else {
        unreachable!("each node but the root has a device's name");
    };
    name
}

fn base_of(node: &Node, sort: Sort) -> Option<u64>
    ensures base { result ≡ base_in (unit_of sort)
        (number_of (codes "guest_physical_addr") node.now.props) }
    ensures below { IfSome result (λ base. base < 2 ^ 41) }
{
    base_in(
        unit_of(sort),
        number_of(&node.props, b"guest_physical_addr"),
    )
}

fn size_of(node: &Node, sort: Sort, base: u64) -> Option<u64>
    requires below { base < 2 ^ 41 }
    ensures size { result ≡ size_in (unit_of sort) base
        (number_of (codes "physical_size") node.now.props) }
{
    size_in(
        unit_of(sort),
        base,
        number_of(&node.props, b"physical_size"),
    )
}

/// Whether it is a PLIC after another one.
fn is_second(earlier: &[Region], sort: Sort) -> bool
    ensures { result ≡ is_second earlier.now sort }
{
    match sort {
        Sort::Ram => false,
        Sort::Rom => false,
        Sort::Reserved => false,
        Sort::Alias => false,
        Sort::Uart => false,
        Sort::Plic => has_plic(earlier),
        Sort::Finisher => false,
    }
}

/// A region's first address.
fn base_in(unit: u64, number: Option<u64>) -> Option<u64>
    requires { 0 < unit }
    ensures base { result ≡ base_in unit number }
    ensures below { IfSome result (λ base. base < 2 ^ 41) }
{
    match number {
        Some(base) if base % unit == 0 && base < ADDRESS_END => Some(base),
        _ => None,
    }
}

/// A region's size, in bytes.
fn size_in(unit: u64, base: u64, number: Option<u64>) -> Option<u64>
    requires positive { 0 < unit }
    requires below { base < 2 ^ 41 }
    ensures { result ≡ size_in unit base number }
{
    match number {
        Some(size) if size % unit == 0 && 0 < size && size <= ADDRESS_END - base => Some(size),
        _ => None,
    }
}
