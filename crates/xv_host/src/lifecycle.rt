//! Commands on a guest's state, its reset, and whether a VCPU may have a turn.
ghost use Rattle.std.specs.Prelude.{◌≡◌, ◌<◌, ℕ, List, length, true, false, IsSome, IfErr, OnOk};
ghost use Rattle.std.specs.Prelude.{OnErr, [], slice_get};
ghost use Rattle.xv_lone.specs.Journal as journal;
ghost use Rattle.xv_lone.specs.Ready as ready;
ghost use Rattle.xv_guest.specs.Guest.{lone_of, with_machine};
ghost use Rattle.xv_host.specs.Change.{IsChange, OfGuest, changed, may_turn};
ghost use Rattle.xv_host.specs.Host.{IsHosted};
ghost use Rattle.xv_host.specs.Lifecycle.{entry_of, is_allowed};
ghost use Rattle.xv_host.specs.Places.{guest_at};

use crate::host::Host;
use crate::monitor::lines;
use crate::turn::time_at;
use xv_base::{GuestKey, VcpuNo};
use xv_bus::Ending;
use xv_firmware::start_first;
use xv_guest::{Guest, GuestState, HartState};

/// A command on a guest's state.
#[derive(Clone, Copy, Debug, PartialEq, Eq)]
pub enum Change {
    /// The start of its first VCPU.
    Kick,
    Pause,
    Resume,
    Halt,
}

/// The guest is in a state that doesn't take the command.
#[derive(Clone, Copy, Debug, PartialEq, Eq)]
pub struct BadState {
    pub state: GuestState,
}

impl Host {
    /// A command on a live guest's state. It is refused in a state that doesn't take it, and then
    /// nothing changes.
    pub fn change(&mut self, key: GuestKey, change: Change) -> Result<(), BadState>
        requires live { IsSome (guest_at self.old.guests key) }

        ensures changed { OnOk result ((bytes : List ℕ) →
            IsChange (entry_of change) key self.old self.new bytes bytes) }
        ensures allowed { OnOk result (OfGuest self.old.guests key
            (λ g. is_allowed change g.state ≡ true)) }
        ensures refused { IfErr result (λ bad. OfGuest self.old.guests key
            (λ g. (bad.state ≡ g.state) × (is_allowed change g.state ≡ false))) }
        ensures pool { self.new.pool ≡ self.old.pool }
        ensures unchanged { OnErr result (self.new ≡ self.old) }
        ensures hosted { (bytes : List ℕ) → IsHosted self.old bytes → IsHosted self.new bytes }
    {
        let guest = self.guests.value_mut(key);
        let state = guest.state();
        if !is_allowed(change, state) {
            return Err(BadState { state });
        }
        apply(guest, change);
        Ok(())
    }

    /// Gives every VCPU of a live guest its reset values, at a clock, which is its birth then.
    pub fn reset(&mut self, key: GuestKey, clock: u64)
        requires live { IsSome (guest_at self.old.guests key) }

        ensures reset { (bytes : List ℕ) →
            IsChange (journal.Reset clock) key self.old self.new bytes bytes }
        ensures pool { self.new.pool ≡ self.old.pool }
        ensures hosted { (bytes : List ℕ) → IsHosted self.old bytes → IsHosted self.new bytes }
    {
        let guest = self.guests.value_mut(key);
        guest.reset();
        guest.put(GuestState::Reset, clock);
    }

    /// Whether a VCPU of a live guest may have a turn at a clock: the guest runs, and the VCPU is
    /// started, or waits or is suspended and an interrupt is pending and enabled.
    pub fn ready(&self, key: GuestKey, vcpu: VcpuNo, clock: u64) -> bool
        requires live { IsSome (guest_at self.now.guests key) }
        requires vcpu { OfGuest self.now.guests key (λ g. vcpu < length g.vcpus) }

        ensures ready { OfGuest self.now.guests key (λ g. result ≡ may_turn g vcpu clock) }
    {
        let guest = self.guest(key);
        match guest.state() {
            GuestState::Running => may_run(guest, vcpu, time_at(guest, clock)),
            GuestState::Reset | GuestState::Paused | GuestState::Halted(_) => false,
        }
    }
}

/// Whether a guest in this state may get the command.
fn is_allowed(change: Change, state: GuestState) -> bool
    ensures { result ≡ is_allowed change state }
{
    match change {
        Change::Kick => matches!(state, GuestState::Reset),
        Change::Pause => matches!(state, GuestState::Running),
        Change::Resume => matches!(state, GuestState::Paused),
        Change::Halt => matches!(state, GuestState::Running | GuestState::Paused),
    }
}

/// The command on a guest that may get it.
fn apply(guest: &mut Guest, change: Change)
    ensures guest { (bytes : List ℕ) → guest.new
        ≡ with_machine guest.old (changed (entry_of change) guest.old bytes) }
    ensures machine { (bytes : List ℕ) → lone_of guest.new bytes
        ≡ changed (entry_of change) guest.old bytes }
{
    let birth = guest.birth();
    match change {
        Change::Kick => {
            start_first(guest);
            guest.put(GuestState::Running, birth);
        }
        Change::Pause => guest.put(GuestState::Paused, birth),
        Change::Resume => guest.put(GuestState::Running, birth),
        Change::Halt => guest.put(GuestState::Halted(Ending::Command), birth),
    }
}

/// Whether a VCPU of a guest that runs may have a turn at guest time `time`.
fn may_run(guest: &Guest, vcpu: VcpuNo, time: u64) -> bool
    requires { vcpu < length guest.now.vcpus }
    ensures { result ≡ ready.vcpu_ready vcpu time (lone_of guest.now [])
        (slice_get guest.now.vcpus vcpu) }
{
    let view = guest.view(vcpu);
    match view.hart {
        HartState::Started => true,
        HartState::Waiting | HartState::Suspended => {
            view.csrs.pending(lines(guest, vcpu, &view, time)) != 0
        }
        HartState::Stopped => false,
    }
}
