//! A turn: lone steps of one VCPU of a guest on the hart.
ghost use Rattle.std.specs.Prelude.{◌≡◌, ◌≢◌, ◌+◌, ◌*◌, ◌^◌, ◌<◌, ◌≤◌, length, [], Some, true};
ghost use Rattle.std.specs.Prelude.{false, IsSome};
ghost use Rattle.std.specs.Prelude.{slice_get};
ghost use Rattle.std.specs.List.{All};
ghost use Rattle.xv_hart.specs.Hart.{regs_of, taken_by, trail_of};
ghost use Rattle.xv_hart.specs.Machine.{IsFit};
ghost use Rattle.xv_hart.specs.Step.{IsWellFormed};
ghost use Rattle.xv_hcsr.specs.Stage.{root_of};
ghost use Rattle.xv_region.specs.Rules.{Accepted};
ghost use Rattle.xv_guest.specs.Guest.{IsView, held_of, lone_of, with_machine};
ghost use Rattle.xv_guest.specs.Held.{IsHeld};
ghost use Rattle.xv_lone.specs.Journal as journal;
ghost use Rattle.xv_lone.specs.Ready as ready;
ghost use Rattle.xv_lone.specs.Trail.{IsTrail, most_tries};
ghost use Rattle.xv_lone.specs.Turn as turns;
ghost use Rattle.xv_host.specs.Change.{IsChange, OfGuest, time_of, may_turn};
ghost use Rattle.xv_host.specs.Host.{IsHosted};
ghost use Rattle.xv_host.specs.Join.{IsGoodFor};
ghost use Rattle.xv_host.specs.OnHart.{core_of, end_of, regs_of_vcpu, shown_guest, view_of};
ghost use Rattle.xv_host.specs.OnHart.{with_view, IsBetween, IsShown, IsTurned};
ghost use Rattle.xv_lone.specs.declared.vcpu.HartState.TheVariants as states;
ghost use Rattle.xv_firmware.specs.Calls.{Leaves};
ghost use Rattle.xv_host.specs.OnHart.{MayRun, Shows, most_accesses};
ghost use Rattle.xv_firmware.specs.declared.calls.Progress.TheVariants as ways;
ghost use Rattle.xv_host.specs.Places.{guest_at};

use crate::host::Host;
use crate::monitor::{lines, lone_step};
use std::sync::ledger::Ledger;
use xv_base::{GuestKey, VcpuNo};
use xv_firmware::Progress;
use xv_guest::{Guest, HartState, VcpuView};
use xv_hart::{Machine, Regs};
use xv_hcsr::HCsrs;
use xv_lone::TurnEnd;
use xv_mem::Steps;

/// The greatest number of lone steps in a turn.
const TURN_STEPS: u32 = 1000;

impl Host {
    /// One turn of a VCPU of a live guest, which is ready. The guest's lone machine becomes the one
    /// after its turn, and the answer is how that ended; nothing of another guest changes. The
    /// trail has then a piece for each lone step, which shows what it began with, and nothing else.
    pub fn turn<L: Ledger>(
        &mut self,
        machine: &mut Machine,
        key: GuestKey,
        vcpu: VcpuNo,
        clock: u64,
        steps: &mut Steps<L>,
    ) -> TurnEnd
        requires live { IsSome (guest_at self.old.guests key) }
        requires ready { OfGuest self.old.guests key (λ g. may_turn g vcpu clock ≡ true) }
        requires hosted { IsHosted self.old machine.old.mem }
        requires fit { IsFit machine.old }
        requires few { taken_by machine.old.hart < 2 ^ 62 }

        ensures turned { IsChange (journal.Turn vcpu clock) key self.old self.new
            machine.old.mem machine.new.mem }
        ensures pool { self.new.pool ≡ self.old.pool }
        ensures ending { OfGuest self.old.guests key (λ g. result
            ≡ turns.ending g.plan vcpu (time_of g clock) (lone_of g machine.old.mem)) }
        ensures trail { OfGuest self.old.guests key (λ g. IsTrail core_of
            (turns.visited g.plan vcpu (time_of g clock) (lone_of g machine.old.mem))
            (trail_of machine.new.hart)) }
        ensures root { All (λ r. root_of r.h ≡ key) (trail_of machine.new.hart) }
        ensures taken { taken_by machine.new.hart
            ≡ taken_by machine.old.hart + length (trail_of machine.new.hart) }
        ensures pieces { OfGuest self.old.guests key (λ g. IsBetween
            (turns.steps g.plan vcpu (time_of g clock) (lone_of g machine.old.mem))
            (length (trail_of machine.new.hart))) }
        ensures few { length (trail_of machine.new.hart) ≤ most_tries * 1000 }
        ensures counted { OfGuest self.old.guests key (λ g. steps.new ≤ steps.old + 1024
            * turns.steps g.plan vcpu (time_of g clock) (lone_of g machine.old.mem)) }
        ensures hosted { IsHosted self.new machine.new.mem }
        ensures area { machine.new.area ≡ machine.old.area }
        ensures size { length machine.new.mem ≡ length machine.old.mem }
        ensures fit { IsFit machine.new }
    {
        let guest = self.guests.value_mut(key);
        turn_of(guest, key, vcpu, machine, clock, steps)
    }
}

/// One turn of a VCPU of a guest by itself.
fn turn_of<L: Ledger>(
    guest: &mut Guest,
    key: GuestKey,
    vcpu: VcpuNo,
    machine: &mut Machine,
    clock: u64,
    steps: &mut Steps<L>,
) -> TurnEnd
    requires held { IsHeld machine.old.mem (held_of guest.old) }
    requires accepted { Accepted guest.old.plan.regions }
    requires key { guest.old.key ≡ key }
    requires root { guest.old.root ≡ Some key }
    requires ready { may_turn guest.old vcpu clock ≡ true }
    requires fit { IsFit machine.old }
    requires few { taken_by machine.old.hart < 2 ^ 62 }

    ensures guest { guest.new ≡ with_machine guest.old
        (turns.turn guest.old.plan vcpu (time_of guest.old clock)
        (lone_of guest.old machine.old.mem)) }
    ensures machine { lone_of guest.new machine.new.mem
        ≡ turns.turn guest.old.plan vcpu (time_of guest.old clock)
        (lone_of guest.old machine.old.mem) }
    ensures ending { result ≡ turns.ending guest.old.plan vcpu (time_of guest.old clock)
        (lone_of guest.old machine.old.mem) }
    ensures trail { IsTrail core_of
        (turns.visited guest.old.plan vcpu (time_of guest.old clock)
        (lone_of guest.old machine.old.mem)) (trail_of machine.new.hart) }
    ensures root { All (λ r. root_of r.h ≡ key) (trail_of machine.new.hart) }
    ensures taken { taken_by machine.new.hart
        ≡ taken_by machine.old.hart + length (trail_of machine.new.hart) }
    ensures pieces { IsBetween (turns.steps guest.old.plan vcpu (time_of guest.old clock)
        (lone_of guest.old machine.old.mem)) (length (trail_of machine.new.hart)) }
    ensures few { length (trail_of machine.new.hart) ≤ most_tries * 1000 }
    ensures counted { steps.new ≤ steps.old + most_accesses * length (trail_of machine.new.hart) }
    ensures good { IsGoodFor (held_of guest.old) machine.old.mem machine.new.mem }
    ensures area { machine.new.area ≡ machine.old.area }
    ensures fit { IsFit machine.new }
{
    let mut view = ready_view(guest, vcpu, clock);
    machine.hart.clear_trail();
    machine
        .hart
        .set_regs(&first_regs(guest, key, vcpu, &view, clock));
    let progress = run(guest, vcpu, &mut view, machine, clock, steps);
    finish(guest, vcpu, &view, machine, progress);
    end_of(progress)
}

/// Makes the VCPU of a guest what the hart shows, unless the guest has rebooted.
fn finish(guest: &mut Guest, vcpu: VcpuNo, view: &VcpuView, machine: &Machine, progress: Progress)
    requires number { IsShown progress → vcpu < length guest.old.vcpus }
    requires formed { IsWellFormed (regs_of machine.now.hart) }
    ensures { guest.new ≡ shown_guest guest.old vcpu view.now (regs_of machine.now.hart) progress }
{
    match progress {
        Progress::Goes(state) => show(guest, vcpu, view, machine, state),
        Progress::Halts => show(guest, vcpu, view, machine, HartState::Started),
        Progress::Reboots => {}
    }
}

/// Makes a VCPU of a guest what the hart shows, in a hart state.
fn show(guest: &mut Guest, vcpu: VcpuNo, view: &VcpuView, machine: &Machine, state: HartState)
    requires number { vcpu < length guest.old.vcpus }
    requires formed { IsWellFormed (regs_of machine.now.hart) }
    ensures { guest.new ≡ with_view guest.old vcpu
        (view_of view.now (regs_of machine.now.hart) state) }
{
    guest.set_view(vcpu, &shown_view(view, machine.hart.regs(), state));
}

/// The VCPU of a guest that is ready.
fn ready_view(guest: &Guest, vcpu: VcpuNo, clock: u64) -> VcpuView
    requires { may_turn guest.now vcpu clock ≡ true }
    ensures view { slice_get guest.now.vcpus vcpu ≡ Some result }
    ensures kept { IsView result }
    ensures may { ready.may_run result.hart (ready.has_interrupt vcpu (time_of guest.now clock)
        (lone_of guest.now []) result) ≡ true }
{
    guest.view(vcpu)
}

/// Guest time at a clock.
pub(crate) fn time_at(guest: &Guest, clock: u64) -> u64
    ensures { result ≡ time_of guest.now clock }
{
    clock.wrapping_sub(guest.birth())
}

/// The registers that the hart has when a VCPU's turn begins.
fn first_regs(guest: &Guest, key: GuestKey, vcpu: VcpuNo, view: &VcpuView, clock: u64) -> Regs
    requires { guest.now.key ≡ key }
    ensures { result ≡ regs_of_vcpu guest.now vcpu clock view.now }
{
    let lines = lines(guest, vcpu, view, time_at(guest, clock));
    let root = key.0;
    let mut h = HCsrs::for_guest(root, key, 0u64.wrapping_sub(guest.birth()));
    h.set_lines(view.csrs.ssip, lines.timer, lines.external);
    Regs {
        x: view.x,
        pc: view.pc,
        user: view.user,
        csrs: view.csrs,
        h,
        time: clock,
        held: None,
    }
}

/// The VCPU that the hart shows, in a hart state.
pub(crate) fn shown_view(view: &VcpuView, regs: &Regs, hart: HartState) -> VcpuView
    ensures { result ≡ view_of view.now regs.now hart }
{
    VcpuView {
        x: regs.x,
        pc: regs.pc,
        user: regs.user,
        csrs: regs.csrs,
        timer: view.timer,
        hart,
    }
}

/// Lone steps, as many as a turn may have, or up to one that leaves the VCPU waiting or stopped, or
/// the guest halted or rebooted.
fn run<L: Ledger>(
    guest: &mut Guest,
    vcpu: VcpuNo,
    view: &mut VcpuView,
    machine: &mut Machine,
    clock: u64,
    steps: &mut Steps<L>,
) -> Progress
    requires may { MayRun guest.old vcpu view.old machine.old.mem }
    requires ready { ready.may_run view.old.hart (ready.has_interrupt vcpu
        (time_of guest.old clock) (lone_of guest.old []) view.old) ≡ true }
    requires fit { IsFit machine.old }
    requires few { taken_by machine.old.hart < 2 ^ 62 }
    requires begun { regs_of machine.old.hart ≡ regs_of_vcpu guest.old vcpu clock view.old }
    requires trail { trail_of machine.old.hart ≡ [] }

    ensures turn { IsTurned guest.old vcpu view.new (time_of guest.old clock) machine.old.mem
        guest.new (regs_of machine.new.hart) machine.new.mem (trail_of machine.new.hart) result }
    ensures leaves { Leaves guest.old guest.new }
    ensures view { Shows result guest.new vcpu view.new }
    ensures formed { IsWellFormed (regs_of machine.new.hart) }
    ensures root { All (λ r. root_of r.h ≡ guest.old.key) (trail_of machine.new.hart) }
    ensures taken { taken_by machine.new.hart
        ≡ taken_by machine.old.hart + length (trail_of machine.new.hart) }
    ensures few { length (trail_of machine.new.hart) ≤ most_tries * 1000 }
    ensures counted { steps.new ≤ steps.old + most_accesses * length (trail_of machine.new.hart) }
    ensures good { IsGoodFor (held_of guest.old) machine.old.mem machine.new.mem }
    ensures area { machine.new.area ≡ machine.old.area }
    ensures fit { IsFit machine.new }
{
    let time = time_at(guest, clock);
    for _made in 0..TURN_STEPS {
        let progress = lone_step(guest, vcpu, view, machine, time, steps);
        if !is_started(progress) {
            return progress;
        }
    }
    Progress::Goes(HartState::Started)
}

/// Whether the turn goes on.
fn is_started(progress: Progress) -> bool
    ensures started { result ≡ true → progress ≡ ways.Goes states.Started }
    ensures ended { result ≡ false → progress ≢ ways.Goes states.Started }
{
    matches!(progress, Progress::Goes(HartState::Started))
}

/// How a turn ends that stands so.
fn end_of(progress: Progress) -> TurnEnd
    ensures { result ≡ end_of progress }
{
    match progress {
        Progress::Goes(HartState::Started) => TurnEnd::Spent,
        Progress::Goes(HartState::Waiting | HartState::Suspended) => TurnEnd::Waits,
        Progress::Goes(HartState::Stopped) => TurnEnd::Stops,
        Progress::Halts => TurnEnd::Halted,
        Progress::Reboots => TurnEnd::Rebooted,
    }
}
