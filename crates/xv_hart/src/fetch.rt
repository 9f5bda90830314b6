//! The fetch alone, for the monitor.
ghost use Rattle.std.specs.Prelude.{◌≡◌, ◌+◌, ◌≤◌};
ghost use Rattle.xv_step.specs.Step.{fetched_word};
ghost use Rattle.xv_hart.specs.Memory.{bus_of, HasMemory};
ghost use Rattle.xv_hart.specs.Step.{state_of, IsWellFormed};

use crate::regs::Regs;
use std::sync::ledger::Ledger;
use xv_mem::{HostMem, Steps};
use xv_pte::Kind3;

impl Regs {
    /// The word at the pc, through both stages, as a step fetches it; None where the pc has no
    /// guest physical address, or one that leads to no memory. A trap of a load or a store doesn't
    /// say which instruction it was (htinst is 0): the monitor, which answers the plain ones, reads
    /// it again.
    pub fn fetch<L: Ledger>(&self, mem: &HostMem, steps: &mut Steps<L>) -> Option<u32>
        requires formed { IsWellFormed self.now }
        requires memory { HasMemory self.now mem.now }
        ensures word { result ≡ fetched_word (bus_of self.now mem.now)
            (state_of self.now mem.now) }
        ensures counted { steps.new ≤ steps.old + 16 }
    {
        let gpa = match self.translate(mem, Kind3::Fetch, self.pc, steps) {
            Ok(gpa) => gpa,
            Err(_) => return None,
        };
        let at = self.place(mem, Kind3::Fetch, gpa, steps)?;
        Some(mem.read32(at, steps))
    }
}
