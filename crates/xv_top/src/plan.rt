//! Plans of guests.
ghost use Rattle.std.specs.Prelude.{◌≡◌, ◌≤◌, codes, IfOk};
ghost use Rattle.xv_region.specs.Plan.{flat};
ghost use Rattle.xv_script.specs.Command.{most_pages};

use std::alloc::Global;
use xv_base::{DevName, NoMemory, dev_name_of};
use xv_region::{Kind, Plan, Region, VcpuPlan};

/// The guest physical address at which a flat guest's memory begins and its VCPU starts.
const FLAT_BASE: u64 = 0x8000_0000;

/// The priority of a flat guest's VCPU.
const USUAL_PRIORITY: u8 = 3;

/// Bytes in a page.
const PAGE_SIZE: u64 = 4096;

/// The plan of a flat guest of that many pages.
pub fn flat(alloc: Global, pages: u32) -> Result<Plan, NoMemory>
    requires { (1 ≤ pages) × (pages ≤ most_pages) }
    ensures { IfOk result (λ plan. plan ≡ flat pages) }
{
    let ram = Region {
        name: flat_name(),
        base: FLAT_BASE,
        size: PAGE_SIZE * u64::from(pages),
        kind: Kind::Ram,
    };
    let vcpu = VcpuPlan {
        start: FLAT_BASE,
        priority: USUAL_PRIORITY,
    };
    Ok(Plan {
        regions: vec![in alloc; ram]?,
        vcpus: vec![in alloc; vcpu]?,
    })
}

/// The name of a flat guest's region.
fn flat_name() -> DevName
    ensures { result ≡ codes "ram" }
{
    let Some(name) = dev_name_of(b"ram") else {
        unreachable!("it is a node's name");
    };
    name
}
