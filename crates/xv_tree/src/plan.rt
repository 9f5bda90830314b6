//! The plan that a tree describes.
ghost use Rattle.std.specs.Prelude.{◌≡◌, ◌<◌, ◌^◌, drop, length, IfOk, IsTrue, slice_index_or};
ghost use Rattle.xv_fdt.specs.Grammar.{IsAllowed};
ghost use Rattle.xv_fdt.specs.Shape.{AreInner};
ghost use Rattle.xv_region.specs.Rules.{Accepted, are_sound, first_fault};
ghost use Rattle.xv_tree.specs.Children.{children};
ghost use Rattle.xv_tree.specs.Fault.{Gives};
ghost use Rattle.xv_tree.specs.Plan.{plan, regions_of};
ghost use Rattle.xv_tree.specs.Seen.{plan_fault};
ghost use Rattle.xv_tree.specs.Vcpus.{AreStarts};

use crate::children::root_child;
use crate::fault::{PlanFault, PlanKind};
use crate::regions::{Kept, regions_of};
use crate::vcpus::vcpus_of;
use std::alloc::Global;
use xv_base::Span;
use xv_fdt::{Node, Tree, has_few_nodes, is_shaped};
use xv_region::{Plan, Region, RegionFault, RegionMap};

/// The plan of the guest that a tree describes, over the reserved area of the host, in bytes, or
/// the first rule that it breaks. The tree is one that some file has.
pub fn plan_of(alloc: Global, tree: &Tree, area: Span) -> Result<Plan, PlanFault>
    requires allowed { IsAllowed tree.now }
    ensures plan { Gives (λ plan. plan) result (plan tree.now area) }
    ensures accepted { IfOk result (λ plan. Accepted plan.regions) }
    ensures starts { IfOk result (λ plan. AreStarts plan.vcpus) }
{
    is_shaped();
    has_few_nodes();
    let nodes = tree.nodes.as_slice();
    let Some(aspace) = root_child(nodes, b"aspace") else {
        return Err(PlanFault::At {
            kind: PlanKind::NoAspace,
            node: 0,
        });
    };
    let Some(parent) = root_child(nodes, b"vcpus") else {
        return Err(PlanFault::At {
            kind: PlanKind::NoVcpus,
            node: 0,
        });
    };
    let vcpus = match vcpus_of(alloc, nodes, parent) {
        Ok(vcpus) => vcpus,
        Err(fault) => return Err(fault),
    };
    let regions = match judged_regions(alloc, nodes, aspace, area) {
        Ok(regions) => regions,
        Err(fault) => return Err(fault),
    };
    Ok(Plan { regions, vcpus })
}

/// The regions that the children of the node `aspace` describe, if they may stand together.
fn judged_regions(
    alloc: Global,
    nodes: &[Node],
    aspace: u32,
    area: Span,
) -> Result<Vec<Region>, PlanFault>
    requires few { length nodes.now < 2 ^ 32 }
    requires shaped { AreInner 1 (drop 1 nodes.now) }
    ensures exact { Gives (λ regions. regions.items) result
        (regions_of area (children aspace nodes.now)) }
    ensures accepted { IfOk result (λ regions. Accepted regions.items) }
{
    let kept = match regions_of(alloc, nodes, aspace) {
        Ok(kept) => kept,
        Err(fault) => return Err(fault),
    };
    let Kept { regions, nodes } = kept;
    match RegionMap::build(alloc, &regions, area) {
        Ok(_) => Ok(regions),
        Err(fault) => Err(fault_of(&nodes, fault)),
    }
}

/// A fault of the regions together, at the node of the region that breaks its rule.
fn fault_of(nodes: &[u32], fault: RegionFault) -> PlanFault
    ensures { result ≡ plan_fault nodes.now fault }
{
    match fault {
        RegionFault::Overlap(first, second) => PlanFault::Overlap(first, second),
        RegionFault::BadAlias(region) => PlanFault::At {
            kind: PlanKind::BadAlias,
            node: node_of(nodes, region),
        },
        RegionFault::BadHost(region) => PlanFault::At {
            kind: PlanKind::BadHost,
            node: node_of(nodes, region),
        },
        RegionFault::NoMemory => PlanFault::NoMemory,
    }
}

/// The number of a region's node.
fn node_of(nodes: &[u32], region: u8) -> u32
    ensures { result ≡ slice_index_or nodes.now region 0 }
{
    match nodes.get(region as usize) {
        Some(node) => *node,
        None => 0,
    }
}
