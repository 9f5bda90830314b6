//! The start of a guest, and its reboot.
ghost use Rattle.std.specs.Prelude.{◌≡◌, ℕ, List, length};
ghost use Rattle.xv_guest.specs.Guest.{lone_of};
ghost use Rattle.xv_lone.specs.Machine.{on_vcpu, rebooted};
ghost use Rattle.xv_lone.specs.Vcpu.{kicked_vcpu};

use xv_base::VcpuNo;
use xv_guest::{Guest, GuestState};

/// Starts the first VCPU of a guest, if it has one.
pub fn start_first(guest: &mut Guest)
    ensures started { (bytes : List ℕ) → lone_of guest.new bytes
        ≡ on_vcpu 0 kicked_vcpu (lone_of guest.old bytes) }
    ensures others { guest.new ≡ record guest.old { vcpus = guest.new.vcpus } }
{
    if guest.plan().vcpus.is_empty() {
        return;
    }
    let first = VcpuNo(0);
    let view = guest.view(first).kicked();
    guest.set_view(first, &view);
}

/// The guest reboots: it has reset values, and its first VCPU is started.
pub fn reboot(guest: &mut Guest)
    ensures rebooted { (bytes : List ℕ) → lone_of guest.new bytes
        ≡ rebooted guest.old.plan (lone_of guest.old bytes) }
    ensures count { length guest.new.vcpus ≡ length guest.old.vcpus }
    ensures others { guest.new ≡ record guest.old {
      devices = guest.new.devices;
      vcpus = guest.new.vcpus;
      state = guest.new.state;
    } }
{
    let birth = guest.birth();
    let _before = guest.plan();
    guest.reset();
    start_first(guest);
    guest.put(GuestState::Running, birth);
    let _after = guest.plan();
}
