//! `run`: turns of the world, one after another.
ghost use Rattle.std.specs.Prelude.{◌≡◌, ℕ, ◌+◌, ◌-◌, ◌*◌, ◌^◌, ◌<◌, ◌≤◌, List, [], length};
ghost use Rattle.std.specs.Prelude.{None, Some, IfSome, IsSome, true, option_map, slice_get};
ghost use Rattle.std.specs.Prelude.{slice_set, ◌⊎◌};
ghost use Rattle.xv_hart.specs.Hart.{taken_by};
ghost use Rattle.xv_hart.specs.Machine.{IsFit};

use super::Manager;
use crate::{refusals, report};
use std::sync::ledger::Ledger;
use xv_base::{GuestKey, VcpuNo};
use xv_hart::Machine;
use xv_mem::Steps;
use xv_print::Printer;

/// The most turns that one script may have.
const MOST_TURNS: u32 = 1_000_000;

/// A VCPU that has the next turn, and the key of its guest.
#[derive(Clone, Copy)]
struct NextTurn {
    key: GuestKey,
    vcpu: VcpuNo,
}

impl Manager {
    ghost use Rattle.xv_host.specs.Change.{OfGuest, may_turn};
    ghost use Rattle.xv_host.specs.Places.{guest_at};
    ghost use Rattle.xv_top.specs.Commands.{run_answer};
    ghost use Rattle.xv_top.specs.World as worlds;
    ghost use Rattle.xv_top.specs.Manager.{live_guest, world_of, Gives, HasGuests, IsSound};
    ghost use Rattle.xv_top.specs.Manager.{IsPicked, IsTurn, IsRunEnd};

    /// Time goes on by one tick, and a turn is counted.
    fn pass(&mut self)
        requires { self.old.turns < MOST_TURNS }
        ensures world { (bytes : List ℕ) →
            world_of self.new bytes ≡ worlds.passed (world_of self.old bytes) }
        ensures guest { self.new.guest ≡ self.old.guest }
        ensures host { self.new.host ≡ self.old.host }
        ensures turns { self.new.turns ≡ self.old.turns + 1 }
    {
        self.clock = self.clock.wrapping_add(self.tick);
        self.turns += 1;
    }

    /// Notes that the turn which is counted next is the last one of a VCPU.
    fn note(&mut self, vcpu: VcpuNo)
        requires { self.old.turns < MOST_TURNS }
        ensures { self.new
            ≡ record self.old { last = slice_set self.old.last vcpu (self.old.turns + 1) } }
    {
        self.last[vcpu.0 as usize] = self.turns + 1;
    }

    /// One turn of the world: that of the VCPU whose turn it is, or an idle one, and then true.
    fn turn<L: Ledger>(&mut self, machine: &mut Machine, steps: &mut Steps<L>) -> bool
        requires sound { IsSound self.old machine.old }
        requires fit { IsFit machine.old }
        requires turns { self.old.turns < MOST_TURNS }
        requires few { taken_by machine.old.hart < 2 ^ 62 }
        ensures turn { (idle work : ℕ) (earlier : List worlds.GuestEntry) →
            IsTurn (world_of self.old machine.old.mem) (world_of self.new machine.new.mem) result
            (taken_by machine.new.hart - taken_by machine.old.hart) idle work earlier }
        ensures kept { (earlier : worlds.RunSoFar) →
            (worlds.one_turn earlier (worlds.pick (world_of self.old machine.old.mem))).entries ≡ []
            → (earlier.entries ≡ []) × ((machine.new.mem ≡ machine.old.mem)
            × (self.new.host ≡ self.old.host)) }
        ensures sound { IsSound self.new machine.new }
        ensures fit { IsFit machine.new }
        ensures size { length machine.new.mem ≡ length machine.old.mem }
        ensures area { machine.new.area ≡ machine.old.area }
        ensures turns { self.new.turns ≤ self.old.turns + 1 }
        ensures taken { taken_by machine.old.hart ≤ taken_by machine.new.hart }
        ensures few { taken_by machine.new.hart ≤ taken_by machine.old.hart + 13000 }
    {
        let Some(next) = self.next_turn() else {
            self.pass();
            return true;
        };
        self.host
            .turn(machine, next.key, next.vcpu, self.clock, steps);
        self.note(next.vcpu);
        self.pass();
        false
    }

    /// The VCPU whose turn it is.
    fn next_turn(&self) -> Option<NextTurn>
        requires { HasGuests self.now.guest self.now.host.guests }
        ensures none { result ≡ None → (bytes : List ℕ) →
            worlds.pick (world_of self.now bytes) ≡ None }
        ensures picked { IfSome result (λ next. IsPicked self.now next.key next.vcpu) }
        ensures live { IfSome result (λ next. IsSome (guest_at self.now.host.guests next.key)) }
        ensures ready { IfSome result (λ next. OfGuest self.now.host.guests next.key
            (λ g. may_turn g next.vcpu self.now.clock ≡ true)) }
    {
        let guest = self.guest?;
        let vcpu = self.next_vcpu(guest.key)?;
        Some(NextTurn {
            key: guest.key,
            vcpu,
        })
    }

    /// Of the VCPUs of a live guest that are ready, that which goes first.
    fn next_vcpu(&self, key: GuestKey) -> Option<VcpuNo>
        requires live { IsSome (guest_at self.now.host.guests key) }
        ensures first { OfGuest self.now.host.guests key (λ g. (name bytes : List ℕ) →
            let live = live_guest name self.now.last g bytes in
            option_map (worlds.candidate live) result ≡ worlds.first_of None
            (worlds.candidates_of (world_of self.now bytes) live)) }
        ensures ready { IfSome result (λ vcpu. OfGuest self.now.host.guests key
            (λ g. may_turn g vcpu self.now.clock ≡ true)) }
    {
        let count = self.vcpu_count(key);
        let mut best: Option<VcpuNo> = None;
        for number in 0..count {
            let vcpu = VcpuNo(number);
            if self.host.ready(key, vcpu, self.clock) {
                best = Some(self.first_of_two(key, best, vcpu));
            }
        }
        best
    }

    /// How many VCPUs a live guest has.
    fn vcpu_count(&self, key: GuestKey) -> u8
        requires live { IsSome (guest_at self.now.host.guests key) }
        ensures count { OfGuest self.now.host.guests key
            (λ g. (result ≡ length g.plan.vcpus) × (length g.vcpus ≡ length g.plan.vcpus)) }
        ensures few { result ≤ 8 }
    {
        self.host.guest(key).plan().vcpus.len() as u8
    }

    /// Of a VCPU of a live guest and those before it, of which this is the first, that which goes
    /// first.
    fn first_of_two(&self, key: GuestKey, best: Option<VcpuNo>, vcpu: VcpuNo) -> VcpuNo
        requires live { IsSome (guest_at self.now.host.guests key) }
        requires number { OfGuest self.now.host.guests key (λ g. vcpu < length g.plan.vcpus) }
        requires best { IfSome best (λ other. OfGuest self.now.host.guests key
            (λ g. other < length g.plan.vcpus)) }
        ensures first { OfGuest self.now.host.guests key (λ g. (name bytes : List ℕ) →
            let live = live_guest name self.now.last g bytes in
            worlds.candidate live result ≡ worlds.first_of_two
            (option_map (worlds.candidate live) best) (worlds.candidate live vcpu)) }
        ensures one { (result ≡ vcpu) ⊎ (best ≡ Some result) }
    {
        let Some(other) = best else {
            return vcpu;
        };
        if self.goes_before(key, vcpu, other) {
            vcpu
        } else {
            other
        }
    }

    /// Whether a VCPU of a live guest goes before another: by the greater priority, and else by the
    /// earlier last turn.
    fn goes_before(&self, key: GuestKey, vcpu: VcpuNo, other: VcpuNo) -> bool
        requires live { IsSome (guest_at self.now.host.guests key) }
        requires number { OfGuest self.now.host.guests key (λ g. vcpu < length g.plan.vcpus) }
        requires other { OfGuest self.now.host.guests key (λ g. other < length g.plan.vcpus) }
        ensures { OfGuest self.now.host.guests key (λ g. (name bytes : List ℕ) →
            let live = live_guest name self.now.last g bytes in
            result ≡ worlds.goes_before (worlds.candidate live vcpu)
            (worlds.candidate live other)) }
    {
        let mine = self.priority_of(key, vcpu);
        let others = self.priority_of(key, other);
        mine > others
            || (mine == others && self.last[vcpu.0 as usize] < self.last[other.0 as usize])
    }

    /// The priority of a VCPU of a live guest.
    fn priority_of(&self, key: GuestKey, vcpu: VcpuNo) -> u8
        requires live { IsSome (guest_at self.now.host.guests key) }
        requires number { OfGuest self.now.host.guests key (λ g. vcpu < length g.plan.vcpus) }
        ensures { OfGuest self.now.host.guests key
            (λ g. result ≡ worlds.priority_in (slice_get g.plan.vcpus vcpu)) }
    {
        self.host.guest(key).plan().vcpus[vcpu.0 as usize].priority
    }

    /// Turns of the world. The answer is how many were idle.
    fn make_turns<L: Ledger>(
        &mut self,
        machine: &mut Machine,
        turns: u32,
        steps: &mut Steps<L>,
    ) -> u32
        requires sound { IsSound self.old machine.old }
        requires fit { IsFit machine.old }
        requires turns { self.old.turns + turns ≤ MOST_TURNS }
        requires few { taken_by machine.old.hart < 2 ^ 61 }

        ensures end { IsRunEnd (worlds.run_of turns (world_of self.old machine.old.mem))
            (world_of self.new machine.new.mem) result
            (taken_by machine.old.hart) (taken_by machine.new.hart) }
        ensures kept { (worlds.run_of turns (world_of self.old machine.old.mem)).entries ≡ []
            → (machine.new.mem ≡ machine.old.mem) × (self.new.host ≡ self.old.host) }
        ensures sound { IsSound self.new machine.new }
        ensures fit { IsFit machine.new }
        ensures size { length machine.new.mem ≡ length machine.old.mem }
        ensures area { machine.new.area ≡ machine.old.area }
        ensures few { taken_by machine.new.hart ≤ taken_by machine.old.hart + 13000 * turns }
    {
        let mut idle = 0;
        for _made in 0..turns {
            if self.turn(machine, steps) {
                idle += 1;
            }
        }
        idle
    }

    /// `run TURNS`
    pub(super) fn run<L: Ledger>(
        &mut self,
        machine: &mut Machine,
        turns: u32,
        printer: &mut Printer,
        steps: &mut Steps<L>,
    )
        requires empty { printer.old ≡ [] }
        requires sound { IsSound self.old machine.old }
        requires fit { IsFit machine.old }
        requires few { taken_by machine.old.hart < 2 ^ 61 }
        ensures answer { Gives (run_answer (world_of self.old machine.old.mem) turns)
            self.old self.new machine.old machine.new printer.new }
        ensures sound { IsSound self.new machine.new }
        ensures fit { IsFit machine.new }
        ensures size { length machine.new.mem ≡ length machine.old.mem }
        ensures area { machine.new.area ≡ machine.old.area }
        ensures few { taken_by machine.new.hart ≤ taken_by machine.old.hart + 2 ^ 34 }
    {
        if MOST_TURNS - self.turns < turns {
            return refusals::refused(printer, b"turns");
        }
        let idle = self.make_turns(machine, turns, steps);
        report::ran(printer, u64::from(turns), u64::from(idle), self.clock);
    }
}
