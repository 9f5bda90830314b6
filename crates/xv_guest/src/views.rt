//! The VCPUs of a plan with reset values.
ghost use Rattle.std.specs.Prelude.{◌≡◌, length, IfOk, vec_len};
ghost use Rattle.xv_lone.specs.Machine.{reset_vcpus};

use std::alloc::Global;
use xv_base::NoMemory;
use xv_lone::VcpuView;
use xv_region::{Plan, VcpuPlan};

/// One for each VCPU of the plan.
pub(crate) fn reset_all(alloc: Global, plan: &Plan) -> Result<Vec<VcpuView>, NoMemory>
    ensures { IfOk result (λ vcpus. vcpus.items ≡ reset_vcpus plan.now) }
{
    let plans: &[VcpuPlan] = &plan.vcpus;
    let mut vcpus = Vec::with_capacity(alloc, plans.len())?;
    for plan in plans {
        vcpus.push(VcpuView::reset(plan.start))?;
    }
    Ok(vcpus)
}

/// Gives each VCPU the reset values of its place in the plan.
pub(crate) fn reset_each(vcpus: &mut Vec<VcpuView>, plan: &Plan)
    requires { vec_len vcpus.old ≡ length plan.now.vcpus }
    ensures vcpus { vcpus.new.items ≡ reset_vcpus plan.now }
{
    let plans: &[VcpuPlan] = &plan.vcpus;
    for (number, plan) in plans.iter().enumerate() {
        vcpus[number] = VcpuView::reset(plan.start);
    }
}
