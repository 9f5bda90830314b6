//! A guest: its plan, its VCPUs and its state, and the numbers of what it holds.
ghost use Rattle.std.specs.Prelude.{◌≡◌, ℕ, ◌<◌, ◌≤◌, length, None, Some, true, IfOk, IsTrue};
ghost use Rattle.std.specs.Prelude.{is_some, slice_get, slice_set};
ghost use Rattle.std.specs.List.{All};
ghost use Rattle.xv_csr.specs.Fields.{IsInstructionAddress};
ghost use Rattle.xv_region.specs.Rules.{are_sound, first_fault};
ghost use Rattle.xv_pool.specs.Resources.{IsSound};
ghost use Rattle.xv_gstage.specs.Memory.{IsZero, SameOutside};
ghost use Rattle.xv_gstage.specs.Own.{table_frames};
ghost use Rattle.xv_guest.specs.Devices.{HasDevices};
ghost use Rattle.xv_guest.specs.Guest.{IsView, held_of, lone_of, new_guest, reset_guest};
ghost use Rattle.xv_guest.specs.Held.{IsHeld, Within, holds, zero_memory};
ghost use Rattle.xv_guest.specs.Take.{GivesBack, MayGive, MayTake, bare_guest, pool_after};
ghost use Rattle.xv_guest.specs.Take.{taken_guest};

use crate::device::RegionDevice;
use crate::device_list;
use crate::device_list::controller_of;
use crate::give::{clear_all, give_numbers};
use crate::take::take_all;
use crate::views::{reset_all, reset_each};
use std::alloc::Global;
use std::marker::Model;
use xv_base::{GuestKey, NoMemory, Span, VcpuNo};
use xv_lone::{GuestState, VcpuView};
use xv_mem::HostMem;
use xv_pool::Pool;
use xv_region::{Plan, RegionMap};

/// A guest of a host. Its memory is made once, by `make`; what it holds of the host is taken and
/// given back by their numbers.
#[derive(Drop)]
pub struct Guest {
    key: GuestKey,
    plan: Plan,
    pub(crate) map: RegionMap,
    // None where the guest holds nothing
    pub(crate) root: Option<u8>,
    pub(crate) frames: Vec<u32>,
    pub(crate) devices: Vec<RegionDevice>,
    // the region of the interrupt controller
    pub(crate) controller: Option<usize>,
    vcpus: Vec<VcpuView>,
    state: GuestState,
    birth: u64,
}

impl Model for Guest {
    ghost use Rattle.xv_guest.specs.Guest.{Guest};

    ghost Value = { Guest };

    ghost use Rattle.xv_guest.specs.Kept.{guest_of, IsKept};

    ghost view = { guest_of };

    ghost invariant = { IsKept };
}

impl Guest {
    /// A guest of this plan, which keeps the rules over the reserved area of its host. It has reset
    /// values and holds nothing of the host yet; all memory that it ever takes is taken here.
    pub fn make(alloc: Global, plan: Plan, key: GuestKey, area: Span) -> Result<Guest, NoMemory>
        requires sound { IsTrue (are_sound plan.regions) }
        requires faultless { first_fault area plan.regions ≡ None }
        requires starts { All (λ v. IsInstructionAddress v.start) plan.vcpus }
        requires vcpus { length plan.vcpus ≤ 8 }
        ensures { IfOk result (λ guest. guest ≡ new_guest plan key) }
    {
        let Ok(map) = RegionMap::build(alloc, &plan.regions, area) else {
            return Err(NoMemory);
        };
        let frames = Vec::with_capacity(alloc, map.need() as usize)?;
        let devices = device_list::make_all(alloc, &plan)?;
        let controller = controller_of(&plan.regions);
        let vcpus = reset_all(alloc, &plan)?;
        Ok(Guest {
            key,
            plan,
            map,
            root: None,
            frames,
            devices,
            controller,
            vcpus,
            state: GuestState::Reset,
            birth: 0,
        })
    }

    /// Takes the least root, the frames that the guest needs, those of the least numbers, and the
    /// ranges of its reserved regions, and fills its tables. All of it can be had, and is zero.
    pub fn take(&mut self, mem: &mut HostMem, pool: &mut Pool)
        requires nothing { self.old.root ≡ None }
        requires may { MayTake mem.old pool.old self.old.plan.regions }
        ensures guest { self.new ≡ taken_guest pool.old self.old }
        ensures pool { pool.new ≡ pool_after self.old.plan.regions pool.old }
        ensures sound { IsSound pool.new }
        ensures held { IsHeld mem.new (held_of self.new) }
        ensures zeros { (lone_of self.new mem.new).memory ≡ zero_memory self.old.plan.regions }
        ensures outside { SameOutside mem.old mem.new (held_of self.new).root
            (table_frames self.new.plan.regions self.new.frames) }
    {
        let root = take_all(mem, pool, &self.map, &mut self.frames);
        self.root = Some(root);
    }

    /// Gives back all that the guest holds, made zero.
    pub fn give(&mut self, mem: &mut HostMem, pool: &mut Pool)
        requires { MayGive mem.old pool.old self.old }
        ensures guest { self.new ≡ bare_guest self.old }
        ensures pool { GivesBack pool.old pool.new self.old }
        ensures sound { IsSound pool.new }
        ensures zeros { (frame : ℕ) → 0 < holds frame (held_of self.old) → IsZero mem.new frame }
        ensures within { Within (held_of self.old) mem.old mem.new }
    {
        let root = self.root();
        clear_all(mem, root, &self.map, &self.frames);
        give_numbers(pool, root, &self.map, &self.frames);
        self.root = None;
        self.frames.clear();
    }

    /// The plan of the guest.
    pub fn plan(&self) -> &Plan
        ensures plan { result.now ≡ self.now.plan }
        ensures vcpus { length self.now.vcpus ≡ length self.now.plan.vcpus }
        ensures few { length self.now.plan.vcpus ≤ 8 }
        ensures devices { HasDevices self.now.plan self.now.devices }
    {
        &self.plan
    }

    /// The map of its regions.
    pub fn map(&self) -> &RegionMap
        ensures { result.now ≡ self.now.plan.regions }
    {
        &self.map
    }

    /// The number of its root table, which it has taken.
    pub fn root(&self) -> u8
        requires { is_some self.now.root ≡ true }
        ensures { self.now.root ≡ Some result }
    {
        let Some(root) = self.root else {
            unreachable!("the guest has a root");
        };
        root
    }

    /// The numbers of its frames: those of its memory, in the order of its regions, and then those
    /// of its tables. There are none before it has taken them.
    pub fn frames(&self) -> &[u32]
        ensures { result.now ≡ self.now.frames }
    {
        &self.frames
    }

    /// One of its VCPUs.
    pub fn view(&self, vcpu: VcpuNo) -> VcpuView
        requires { vcpu < length self.now.vcpus }
        ensures view { slice_get self.now.vcpus vcpu ≡ Some result }
        ensures kept { IsView result }
    {
        self.vcpus[vcpu.0 as usize]
    }

    /// Makes one of its VCPUs this one.
    pub fn set_view(&mut self, vcpu: VcpuNo, view: &VcpuView)
        requires number { vcpu < length self.old.vcpus }
        requires kept { IsView view.now }
        ensures { self.new ≡ record self.old { vcpus = slice_set self.old.vcpus vcpu view.now } }
    {
        self.vcpus[vcpu.0 as usize] = *view;
    }

    /// Where the guest stands between its create and its end.
    pub fn state(&self) -> GuestState
        ensures { result ≡ self.now.state }
    {
        self.state
    }

    /// The host's clock at the birth of the guest, or at its last reset.
    pub fn birth(&self) -> u64
        ensures { result ≡ self.now.birth }
    {
        self.birth
    }

    /// Makes its state and its birth these.
    pub fn put(&mut self, state: GuestState, birth: u64)
        ensures { self.new ≡ record self.old { state = state; birth = birth } }
    {
        self.state = state;
        self.birth = birth;
    }

    /// Gives every VCPU and every device its reset values. The guest isn't started then; its memory
    /// and its birth stay.
    pub fn reset(&mut self)
        ensures { self.new ≡ reset_guest self.old }
    {
        reset_each(&mut self.vcpus, &self.plan);
        device_list::reset_all(&mut self.devices);
        self.state = GuestState::Reset;
    }
}
