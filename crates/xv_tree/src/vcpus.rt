//! The VCPUs that a tree describes.
ghost use Rattle.std.specs.Prelude.{◌≡◌, ◌<◌, ◌^◌, [], length, IfErr, IfOk, OnOk, Ok};
ghost use Rattle.std.specs.Prelude.{option_copied};
ghost use Rattle.xv_tree.specs.Children.{children};
ghost use Rattle.xv_tree.specs.Fault.{Fails, Gives, in_turn};
ghost use Rattle.xv_tree.specs.Vcpus.{AreStarts, priority_in, start_in, vcpu_of, vcpus_of};
ghost use Rattle.xv_tree.specs.Vcpus.{with_vcpu};

use crate::children::child_at;
use crate::fault::{PlanFault, PlanKind};
use crate::values::{number_of, value_of, word};
use std::alloc::Global;
use xv_fdt::{Node, Prop};
use xv_region::VcpuPlan;

/// The priority of a VCPU that gives none.
const USUAL_PRIORITY: u8 = 3;

/// The VCPUs that the children of the node `parent` describe.
pub(crate) fn vcpus_of(
    alloc: Global,
    nodes: &[Node],
    parent: u32,
) -> Result<Vec<VcpuPlan>, PlanFault>
    requires few { length nodes.now < 2 ^ 32 }
    ensures exact { Gives (λ vcpus. vcpus.items) result (vcpus_of (children parent nodes.now)) }
    ensures starts { IfOk result (λ vcpus. AreStarts vcpus.items) }
{
    let Some(_) = child_at(nodes, parent, 0) else {
        return Err(PlanFault::At {
            kind: PlanKind::NoVcpus,
            node: 0,
        });
    };
    if let Some(ninth) = child_at(nodes, parent, 8) {
        return Err(PlanFault::At {
            kind: PlanKind::TooManyVcpus,
            node: ninth,
        });
    }
    all_vcpus(alloc, nodes, parent)
}

/// The same, of any number.
fn all_vcpus(alloc: Global, nodes: &[Node], parent: u32) -> Result<Vec<VcpuPlan>, PlanFault>
    requires few { length nodes.now < 2 ^ 32 }
    ensures exact { Gives (λ vcpus. vcpus.items) result
        (in_turn with_vcpu [] (children parent nodes.now)) }
{
    let mut vcpus = Vec::new(alloc);
    for number in 1..nodes.len() {
        let node = &nodes[number];
        if node.parent != parent {
            continue;
        }
        if let Err(fault) = add_vcpu(&mut vcpus, node, number as u32) {
            return Err(fault);
        }
    }
    Ok(vcpus)
}

/// Adds the VCPU that a node describes.
fn add_vcpu(vcpus: &mut Vec<VcpuPlan>, node: &Node, number: u32) -> Result<(), PlanFault>
    ensures added { OnOk result
        (with_vcpu vcpus.old.items (number, node.now) ≡ Ok vcpus.new.items) }
    ensures fault { IfErr result
        (λ fault. Fails fault (with_vcpu vcpus.old.items (number, node.now))) }
{
    match vcpu_of(&node.props) {
        Ok(vcpu) => {
            vcpus.push(vcpu)?;
            Ok(())
        }
        Err(kind) => Err(PlanFault::At { kind, node: number }),
    }
}

/// The VCPU that a node of these properties describes.
fn vcpu_of(props: &[Prop]) -> Result<VcpuPlan, PlanKind>
    ensures { result ≡ vcpu_of props.now }
{
    let Some(start) = start_in(number_of(props, b"start_pc")) else {
        return Err(PlanKind::BadStart);
    };
    let Some(priority) = priority_in(value_of(props, b"priority")) else {
        return Err(PlanKind::BadPriority);
    };
    Ok(VcpuPlan { start, priority })
}

/// An address at which an instruction may begin.
fn start_in(address: Option<u64>) -> Option<u64>
    ensures { result ≡ start_in address }
{
    match address {
        Some(start) if start % 4 == 0 => Some(start),
        _ => None,
    }
}

/// A priority of 0 to 7, or the usual one.
fn priority_in(value: Option<&[u8]>) -> Option<u8>
    ensures { result ≡ priority_in (option_copied value.entry) }
{
    let Some(value) = value else {
        return Some(USUAL_PRIORITY);
    };
    match word(value) {
        Some(priority) if priority <= 7 => Some(priority as u8),
        _ => None,
    }
}
