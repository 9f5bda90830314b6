//! The hart, as the layers above use it.
ghost use Rattle.std.specs.Prelude.{◌≡◌, ◌+◌, ◌^◌, ◌<◌, ◌≤◌, [], ◌∷◌, ◌++◌, length};

use crate::exit::Exit;
use crate::regs::Regs;
use crate::trail::Trail;
use std::alloc::Global;
use std::sync::ledger::Ledger;
use xv_base::NoMemory;
use xv_mem::{HostMem, Steps};

/// How many entries the trail has room for: 13 for each of the 1,000 steps that a guest makes in a
/// turn, since the hart makes at most 13 for one of them.
const TRAIL_ROOM: usize = 13_000;

/// The one hart: its registers, how many steps it has taken, and with which registers each began.
#[derive(Drop)]
pub struct Hart {
    regs: Regs,
    steps_taken: u64,
    trail: Trail,
}

impl Hart {
    ghost use Rattle.std.specs.Prelude.{OnOk, OnErr, IsTrue, ◌↔◌};
    ghost use Rattle.xv_hart.specs.Hart.{regs_of, taken_by, trail_of, room_of};
    ghost use Rattle.xv_hart.specs.Hart.{zero_hart, trail_room};
    ghost use Rattle.xv_hart.specs.Step.{hart_step, came, IsWellFormed};
    ghost use Rattle.xv_hart.specs.Memory.{HasMemory};
    ghost use Rattle.xv_hart.specs.Stage.{SameUnled, OwnGround};
    ghost use Rattle.xv_hcsr.specs.Stage.{root_of};
    ghost use Rattle.xv_pte.specs.GStage.{SameTables};

    /// A hart of zeros that has taken no step.
    pub(crate) fn zero() -> Hart
        ensures { result ≡ zero_hart }
    {
        Hart {
            regs: Regs::zero(),
            steps_taken: 0,
            trail: Trail::none(),
        }
    }

    /// Makes room for the trail, which is empty then.
    pub(crate) fn make_room(&mut self, alloc: Global) -> Result<(), NoMemory>
        ensures ok { OnOk result
            (self.new ≡ record self.old { trail = record { entries = []; room = trail_room } }) }
        ensures err { OnErr result (self.new ≡ self.old) }
    {
        match Trail::with_room(alloc, TRAIL_ROOM) {
            Ok(trail) => {
                self.trail = trail;
                Ok(())
            }
            Err(NoMemory) => Err(NoMemory),
        }
    }

    /// Whether the hart is as `zero` makes it.
    pub(crate) fn is_zero(&self) -> bool
        ensures { IsTrue result ↔ (self.now ≡ zero_hart) }
    {
        self.regs.is_zero() && self.steps_taken == 0 && self.trail.room() == 0
    }

    /// How many steps this hart has taken, those among them that it left to the monitor.
    pub fn steps_taken(&self) -> u64
        ensures { result ≡ taken_by self.now }
    {
        self.steps_taken
    }

    /// What `regs` showed when each step began since the trail was last emptied, the oldest first.
    pub fn trail(&self) -> &[Regs]
        ensures { result.now ≡ trail_of self.now }
    {
        self.trail.entries()
    }

    /// Empties the trail. Its room stays.
    pub fn clear_trail(&mut self)
        ensures trail { trail_of self.new ≡ [] }
        ensures regs { regs_of self.new ≡ regs_of self.old }
        ensures taken { taken_by self.new ≡ taken_by self.old }
        ensures room { room_of self.new ≡ room_of self.old }
    {
        self.trail.clear();
    }

    /// The registers.
    pub fn regs(&self) -> &Regs
        ensures { result.now ≡ regs_of self.now }
    {
        &self.regs
    }

    /// Replaces the registers. A step needs a pc that is a multiple of 4, CSRs that hold what
    /// writes of them keep, hypervisor CSRs as `HCsrs::for_guest` makes them but for lines and
    /// time, and an SSIP that equals VSSIP of hvip.
    pub fn set_regs(&mut self, regs: &Regs)
        ensures regs { regs_of self.new ≡ regs.now }
        ensures trail { trail_of self.new ≡ trail_of self.old }
        ensures taken { taken_by self.new ≡ taken_by self.old }
        ensures room { room_of self.new ≡ room_of self.old }
    {
        self.regs = *regs;
    }

    /// One step over host memory: an interrupt, an instruction, or its exception. It counts, and
    /// the trail grows, also where the step is left to the monitor. The tables of the root that
    /// hgatp names have to lie in host memory with all that they lead to, and the trail needs room
    /// for one more entry.
    ///
    /// It changes bytes alone to which that root leads. So where the root leads to none of its own
    /// tables they stay, and lie in memory as before.
    pub fn step<L: Ledger>(&mut self, mem: &mut HostMem, steps: &mut Steps<L>) -> Exit
        requires room { length (trail_of self.old) < room_of self.old }
        requires formed { IsWellFormed (regs_of self.old) }
        requires memory { HasMemory (regs_of self.old) mem.old }
        requires few { taken_by self.old < 2 ^ 63 }

        ensures step { came result (regs_of self.new) mem.new
            ≡ hart_step (regs_of self.old) mem.old }
        ensures formed { IsWellFormed (regs_of self.new) }
        ensures taken { taken_by self.new ≡ taken_by self.old + 1 }
        ensures trail { trail_of self.new ≡ trail_of self.old ++ regs_of self.old ∷ [] }
        ensures room { room_of self.new ≡ room_of self.old }
        ensures size { length mem.new ≡ length mem.old }
        ensures outside { SameUnled mem.old mem.new (root_of (regs_of self.old).h) }
        ensures tables { OwnGround mem.old (root_of (regs_of self.old).h) →
            SameTables mem.old mem.new (root_of (regs_of self.old).h) }
        ensures ground { OwnGround mem.old (root_of (regs_of self.old).h) →
            OwnGround mem.new (root_of (regs_of self.old).h) }
        ensures memory { OwnGround mem.old (root_of (regs_of self.old).h) →
            HasMemory (regs_of self.new) mem.new }
        ensures counted { steps.new ≤ steps.old + 50 }
    {
        self.trail.push(&self.regs);
        self.steps_taken += 1;
        self.regs.step(mem, steps)
    }
}
