//! The monitor: it answers what the hart leaves, so that the two together make a lone step.
ghost use Rattle.std.specs.Prelude.{◌≡◌, ℕ, ◌+◌, ◌^◌, ◌<◌, ◌≤◌, List, length};
ghost use Rattle.xv_isa.specs.Length.{next_pc};
ghost use Rattle.xv_hart.specs.Hart.{regs_of, taken_by, trail_of, room_of};
ghost use Rattle.xv_hart.specs.Memory.{HasMemory};
ghost use Rattle.xv_hart.specs.Step.{after_trap, IsWellFormed};
ghost use Rattle.xv_region.specs.Rules.{Accepted};
ghost use Rattle.xv_firmware.specs.Calls.{Leaves, ecall_word};
ghost use Rattle.xv_guest.specs.Guest.{IsView, held_of};
ghost use Rattle.xv_guest.specs.Held.{IsHeld};
ghost use Rattle.xv_lone.specs.Step as lone;
ghost use Rattle.xv_lone.specs.Trail.{most_tries};
ghost use Rattle.xv_lone.specs.declared.vcpu.HartState.TheVariants as states;
ghost use Rattle.xv_host.specs.Join.{IsGoodFor};
ghost use Rattle.xv_host.specs.Monitor.{TellsAccess, access_by, monitored, word_of};
ghost use Rattle.xv_host.specs.OnHart.{after_of, on_hart_of, view_of, lines_of_vcpu};
ghost use Rattle.xv_host.specs.OnHart.{with_lines_of, Grows, IsOnHart, IsViewAt};
ghost use Rattle.xv_host.specs.OnHart.{MayRun, Shows, most_accesses};
ghost use Rattle.xv_firmware.specs.declared.calls.Progress.TheVariants as progress;

use crate::emulate::page_fault;
use crate::turn::shown_view;
use std::sync::ledger::Ledger;
use xv_base::VcpuNo;
use xv_csr::Lines;
use xv_csr::cause::{
    ENVIRONMENT_CALL_FROM_VS, INSTRUCTION_ACCESS_FAULT, INSTRUCTION_GUEST_PAGE_FAULT,
    VIRTUAL_INSTRUCTION,
};
use xv_firmware::{Progress, call};
use xv_guest::{Guest, HartState, VcpuView};
use xv_hart::{Exit, HTrap, Hart, Machine, Regs};
use xv_isa::next_pc;
use xv_mem::{HostMem, Steps};
use xv_trap::enter;

/// The interrupt lines of a VCPU at a guest time, as they are now.
pub(crate) fn lines(guest: &Guest, vcpu: VcpuNo, view: &VcpuView, time: u64) -> Lines
    ensures { result ≡ lines_of_vcpu guest.now vcpu time view.now }
{
    Lines {
        timer: view.timer <= time,
        external: guest.external(vcpu),
    }
}

/// One lone step, at guest time `time`, of the VCPU that is on the hart. The interrupt lines are
/// those of this moment.
pub(crate) fn lone_step<L: Ledger>(
    guest: &mut Guest,
    vcpu: VcpuNo,
    view: &mut VcpuView,
    machine: &mut Machine,
    time: u64,
    steps: &mut Steps<L>,
) -> Progress
    requires may { MayRun guest.old vcpu view.old machine.old.mem }
    requires on { IsOnHart guest.old time (regs_of machine.old.hart) }
    requires formed { IsWellFormed (regs_of machine.old.hart) }
    requires room { length (trail_of machine.old.hart) + most_tries ≤ room_of machine.old.hart }
    requires few { taken_by machine.old.hart < 2 ^ 63 }

    ensures stepped { after_of guest.new vcpu view.new
        (regs_of machine.new.hart) machine.new.mem result
        ≡ lone.stepped guest.old.plan vcpu time (on_hart_of guest.old vcpu view.old
        (regs_of machine.old.hart) machine.old.mem states.Started)
        (view_of view.old (regs_of machine.old.hart) states.Started) }
    ensures leaves { Leaves guest.old guest.new }
    ensures view { Shows result guest.new vcpu view.new }
    ensures on { IsOnHart guest.old time (regs_of machine.new.hart) }
    ensures formed { IsWellFormed (regs_of machine.new.hart) }
    ensures trail { Grows guest.old.key (regs_of machine.old.hart) (trail_of machine.old.hart)
        (trail_of machine.new.hart) }
    ensures taken { taken_by machine.new.hart + length (trail_of machine.old.hart)
        ≡ taken_by machine.old.hart + length (trail_of machine.new.hart) }
    ensures room { room_of machine.new.hart ≡ room_of machine.old.hart }
    ensures good { IsGoodFor (held_of guest.old) machine.old.mem machine.new.mem }
    ensures area { machine.new.area ≡ machine.old.area }
    ensures counted { steps.new ≤ steps.old + most_accesses }
{
    set_lines(&mut machine.hart, lines(guest, vcpu, view, time));
    let Exit::Trap(trap) = machine.hart.step(&mut machine.mem, steps) else {
        return Progress::Goes(HartState::Started);
    };
    answer_trap(guest, vcpu, view, machine, time, &trap, steps)
}

/// The monitor's part of a lone step. Few steps have one, so it is a function of its own: the
/// others make no copy of the registers.
#[cold]
fn answer_trap<L: Ledger>(
    guest: &mut Guest,
    vcpu: VcpuNo,
    view: &mut VcpuView,
    machine: &mut Machine,
    time: u64,
    trap: &HTrap,
    steps: &mut Steps<L>,
) -> Progress
    requires number { vcpu < length guest.old.vcpus }
    requires view { IsViewAt guest.old vcpu view.old }
    requires formed { IsWellFormed (regs_of machine.old.hart) }
    requires memory { HasMemory (regs_of machine.old.hart) machine.old.mem }
    requires held { IsHeld machine.old.mem (held_of guest.old) }
    requires accepted { Accepted guest.old.plan.regions }
    requires tells { TellsAccess (access_by (word_of (regs_of machine.old.hart) machine.old.mem)
        (regs_of machine.old.hart).x) trap.now }
    ensures monitored { after_of guest.new vcpu view.new (regs_of machine.new.hart) machine.new.mem
        result ≡ monitored guest.old.plan vcpu time
        (on_hart_of guest.old vcpu view.old (regs_of machine.old.hart) machine.old.mem
        states.Started) (view_of view.old (regs_of machine.old.hart) states.Started)
        (word_of (regs_of machine.old.hart) machine.old.mem) trap.now }
    ensures leaves { Leaves guest.old guest.new }
    ensures view { Shows result guest.new vcpu view.new }
    ensures time { (regs_of machine.new.hart).time ≡ (regs_of machine.old.hart).time }
    ensures h { (regs_of machine.new.hart).h
        ≡ record (regs_of machine.old.hart).h { hvip = (regs_of machine.new.hart).h.hvip } }
    ensures held { (regs_of machine.new.hart).held ≡ (regs_of machine.old.hart).held }
    ensures formed { IsWellFormed (regs_of machine.new.hart) }
    ensures trail { trail_of machine.new.hart ≡ trail_of machine.old.hart }
    ensures taken { taken_by machine.new.hart ≡ taken_by machine.old.hart }
    ensures room { room_of machine.new.hart ≡ room_of machine.old.hart }
    ensures area { machine.new.area ≡ machine.old.area }
    ensures good { IsGoodFor (held_of guest.old) machine.old.mem machine.new.mem }
    ensures counted { steps.new ≤ steps.old + 16 }
{
    let mut regs = *machine.hart.regs();
    let mem = &mut machine.mem;
    let progress = answer(guest, vcpu, view, &mut regs, mem, time, trap, steps);
    machine.hart.set_regs(&regs);
    progress
}

/// Answers a trap: a call, a wait, an access to a device, or one to memory that isn't there.
#[tactic(auto, using(crate::proofs::ViewLemmas::fault_back))]
fn answer<L: Ledger>(
    guest: &mut Guest,
    vcpu: VcpuNo,
    view: &mut VcpuView,
    regs: &mut Regs,
    mem: &mut HostMem,
    time: u64,
    trap: &HTrap,
    steps: &mut Steps<L>,
) -> Progress
    requires number { vcpu < length guest.old.vcpus }
    requires view { IsViewAt guest.old vcpu view.old }
    requires formed { IsWellFormed regs.old }
    requires memory { HasMemory regs.old mem.old }
    requires held { IsHeld mem.old (held_of guest.old) }
    requires accepted { Accepted guest.old.plan.regions }
    requires tells { TellsAccess (access_by (word_of regs.old mem.old) regs.old.x) trap.now }
    ensures monitored { after_of guest.new vcpu view.new regs.new mem.new result
        ≡ monitored guest.old.plan vcpu time
        (on_hart_of guest.old vcpu view.old regs.old mem.old states.Started)
        (view_of view.old regs.old states.Started) (word_of regs.old mem.old) trap.now }
    ensures leaves { Leaves guest.old guest.new }
    ensures view { Shows result guest.new vcpu view.new }
    ensures time { regs.new.time ≡ regs.old.time }
    ensures h { regs.new.h ≡ record regs.old.h { hvip = regs.new.h.hvip } }
    ensures held { regs.new.held ≡ regs.old.held }
    ensures formed { IsWellFormed regs.new }
    ensures good { IsGoodFor (held_of guest.old) mem.old mem.new }
    ensures counted { steps.new ≤ steps.old + 16 }
{
    match trap.cause as u64 {
        ENVIRONMENT_CALL_FROM_VS => answer_call(guest, vcpu, view, regs, time),
        VIRTUAL_INSTRUCTION => Progress::Goes(wait(guest, vcpu, view, regs, time, trap.word)),
        INSTRUCTION_GUEST_PAGE_FAULT => {
            Progress::Goes(fault(regs, INSTRUCTION_ACCESS_FAULT, trap.tval))
        }
        _ => page_fault(guest, vcpu, view, regs, mem, trap, steps),
    }
}

// WFI goes on, and its VCPU waits where no interrupt is pending and enabled.
fn wait(
    guest: &Guest,
    vcpu: VcpuNo,
    view: &VcpuView,
    regs: &mut Regs,
    time: u64,
    word: u32,
) -> HartState
    requires number { vcpu < length guest.now.vcpus }
    requires formed { IsWellFormed regs.old }
    ensures waits { (bytes : List ℕ) →
        after_of guest.now vcpu view.now regs.new bytes (progress.Goes result)
        ≡ lone.waits guest.now.plan vcpu time
        (on_hart_of guest.now vcpu view.now regs.old bytes states.Started)
        (view_of view.now regs.old states.Started) (next_pc regs.old.pc word) }
    ensures others { regs.new ≡ record regs.old { pc = regs.new.pc } }
    ensures formed { IsWellFormed regs.new }
{
    regs.pc = next_pc(regs.pc, word);
    if regs.csrs.pending(lines(guest, vcpu, view, time)) == 0 {
        HartState::Waiting
    } else {
        HartState::Started
    }
}

// The interrupt lines of the hart, which a step may find changed.
fn set_lines(hart: &mut Hart, lines: Lines)
    ensures regs { regs_of hart.new ≡ with_lines_of lines (regs_of hart.old) }
    ensures trail { trail_of hart.new ≡ trail_of hart.old }
    ensures taken { taken_by hart.new ≡ taken_by hart.old }
    ensures room { room_of hart.new ≡ room_of hart.old }
{
    let mut h = hart.regs().h;
    h.set_lines(hart.regs().csrs.ssip, lines.timer, lines.external);
    if h.hvip != hart.regs().h.hvip {
        let mut regs = *hart.regs();
        regs.h = h;
        hart.set_regs(&regs);
    }
}

/// Answers a call of the VCPU that is on the hart. It may change other VCPUs of the guest; the view
/// and the hart's registers are then what the call left of this one.
fn answer_call(
    guest: &mut Guest,
    vcpu: VcpuNo,
    view: &mut VcpuView,
    regs: &mut Regs,
    time: u64,
) -> Progress
    requires number { vcpu < length guest.old.vcpus }
    requires formed { IsWellFormed regs.old }
    ensures calls { (t : ℕ) (bytes : List ℕ) →
        after_of guest.new vcpu view.new regs.new bytes result
        ≡ lone.calls guest.old.plan vcpu t
        (on_hart_of guest.old vcpu view.old regs.old bytes states.Started)
        (view_of view.old regs.old states.Started) (next_pc regs.old.pc ecall_word) }
    ensures leaves { Leaves guest.old guest.new }
    ensures view { Shows result guest.new vcpu view.new }
    ensures time { regs.new.time ≡ regs.old.time }
    ensures h { regs.new.h ≡ record regs.old.h { hvip = regs.new.h.hvip } }
    ensures held { regs.new.held ≡ regs.old.held }
    ensures formed { IsWellFormed regs.new }
{
    guest.set_view(vcpu, &shown_view(view, regs, HartState::Started));
    let progress = call(guest, vcpu);
    *view = guest.view(vcpu);
    let lines = lines(guest, vcpu, view, time);
    load(regs, view, lines);
    progress
}

// The hart's registers become those of a VCPU, with these interrupt lines.
fn load(regs: &mut Regs, view: &VcpuView, lines: Lines)
    requires formed { IsWellFormed regs.old }
    requires view { IsView view.now }
    ensures regs { regs.new ≡ record regs.old {
      x = view.now.x;
      pc = view.now.pc;
      user = view.now.user;
      csrs = view.now.csrs;
      h = regs.new.h;
    } }
    ensures h { regs.new.h ≡ record regs.old.h { hvip = regs.new.h.hvip } }
    ensures formed { IsWellFormed regs.new }
{
    regs.x = view.x;
    regs.pc = view.pc;
    regs.user = view.user;
    regs.csrs = view.csrs;
    regs.h
        .set_lines(view.csrs.ssip, lines.timer, lines.external);
}

// An access fault of the guest, at the instruction that made the access.
#[tactic(auto, using(xv_hart::proofs::StepLemmas::entered))]
pub(crate) fn fault(regs: &mut Regs, cause: u64, va: u64) -> HartState
    requires formed { IsWellFormed regs.old }
    ensures started { result ≡ HartState.Started }
    ensures regs { regs.new ≡ after_trap cause va regs.old }
    ensures formed { IsWellFormed regs.new }
{
    let pc = enter(&mut regs.csrs, regs.user, cause, va, regs.pc);
    regs.pc = pc;
    regs.user = false;
    HartState::Started
}
