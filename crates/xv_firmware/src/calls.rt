//! A call of a guest to its firmware (Supervisor Binary Interface 1.0).
ghost use Rattle.std.specs.Prelude.{◌≡◌, ℕ, ◌<◌, List, length, slice_get, Some, Option};
ghost use Rattle.xv_csr.specs.Fields.{IsInstructionAddress};
ghost use Rattle.xv_isa.specs.Length.{next_pc};
ghost use Rattle.xv_step.specs.State.{Held};
ghost use Rattle.xv_guest.specs.Guest.{lone_of};
ghost use Rattle.xv_lone.specs.Calls as lone;
ghost use Rattle.xv_lone.specs.Memory.{Place};
ghost use Rattle.xv_lone.specs.Step.{by_reply, calls};
ghost use Rattle.xv_lone.specs.declared.vcpu.VcpuView.{VcpuView};
ghost use Rattle.xv_firmware.specs.Calls.{CallerIs, InState, Leaves, after_guest, ecall_word};
ghost use Rattle.xv_firmware.specs.Calls.{reply_of};

use crate::reply::{Reply, reply_to};
use crate::start::reboot;
use xv_base::VcpuNo;
use xv_guest::{Guest, GuestState, HartState};
use xv_isa::next_pc;
use xv_sbi::{Call, call_of};

// the word of ECALL
const ECALL: u32 = 0x0000_0073;

// the registers of error and value
const A0: usize = 10;

const A1: usize = 11;

/// How the turn of a VCPU stands after a lone step.
#[derive(Clone, Copy)]
pub enum Progress {
    /// The VCPU is in this hart state.
    Goes(HartState),
    /// The guest halted.
    Halts,
    /// The guest rebooted.
    Reboots,
}

/// Answers the call that a VCPU makes by the ECALL at its pc. It may change other VCPUs of the
/// guest too.
pub fn call(guest: &mut Guest, vcpu: VcpuNo) -> Progress
    requires number { vcpu < length guest.old.vcpus }
    ensures called { (t : ℕ) (bytes : List ℕ) (held : Option (Held Place)) (v : VcpuView) →
        slice_get guest.old.vcpus vcpu ≡ Some v → after_guest guest.new held bytes result
        ≡ calls guest.old.plan vcpu t
        (record { machine = lone_of guest.old bytes; held = held }) v (next_pc v.pc ecall_word) }
    ensures leaves { Leaves guest.old guest.new }
    ensures count { length guest.new.vcpus ≡ length guest.old.vcpus }
    ensures state { (v : VcpuView) → slice_get guest.new.vcpus vcpu ≡ Some v
        → InState result v.hart }
{
    let view = guest.view(vcpu);
    let reply = reply_to(guest, vcpu, call_in(&view.x));
    carry_out(guest, vcpu, next_pc(view.pc, ECALL), reply)
}

/// The call that the registers ask for.
fn call_in(x: &[u64; 32]) -> Call
    ensures { result ≡ lone.call_in x.now }
{
    call_of(x[17], x[16], [x[10], x[11], x[12], x[13], x[14], x[15]])
}

/// Does what a reply asks for to the VCPU that called. It goes on at `next`, unless the guest
/// reboots.
fn carry_out(guest: &mut Guest, vcpu: VcpuNo, next: u64, reply: Reply) -> Progress
    requires number { vcpu < length guest.old.vcpus }
    requires next { IsInstructionAddress next }
    ensures out { (t : ℕ) (bytes : List ℕ) (held : Option (Held Place)) (v : VcpuView) →
        CallerIs reply guest.old vcpu v → after_guest guest.new held bytes result
        ≡ by_reply guest.old.plan vcpu t
        (record { machine = lone_of guest.old bytes; held = held }) v next
        (reply_of reply (lone_of guest.old bytes)) }
    ensures leaves { Leaves guest.old guest.new }
    ensures count { length guest.new.vcpus ≡ length guest.old.vcpus }
    ensures state { (v : VcpuView) → slice_get guest.new.vcpus vcpu ≡ Some v
        → InState result v.hart }
{
    let mut view = guest.view(vcpu);
    view.pc = next;
    match reply {
        Reply::Returns(error, value) => {
            view.x[A0] = error;
            view.x[A1] = value;
            guest.set_view(vcpu, &view);
            Progress::Goes(view.hart)
        }
        Reply::StopsCaller => {
            view.hart = HartState::Stopped;
            guest.set_view(vcpu, &view);
            Progress::Goes(HartState::Stopped)
        }
        Reply::HaltsGuest(ending) => {
            view.hart = HartState::Started;
            guest.set_view(vcpu, &view);
            let birth = guest.birth();
            guest.put(GuestState::Halted(ending), birth);
            Progress::Halts
        }
        Reply::RebootsGuest => {
            reboot(guest);
            Progress::Reboots
        }
    }
}
