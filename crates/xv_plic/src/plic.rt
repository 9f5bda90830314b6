//! The interrupt controller as a device, with the lines of its contexts at hand.
ghost use Rattle.std.specs.Prelude.{◌≡◌, ◌≤◌, false};
ghost use Rattle.xv_base.specs.Bits.{has_bit};
ghost use Rattle.xv_bus.specs.Plic as plics;
ghost use Rattle.xv_plic.specs.Registers.{unit_of};

use crate::registers::Registers;
use crate::state::PlicState;
use std::marker::Model;
use xv_bus::{Access, Device, GuestMem, Outcome};

/// A PLIC, seen by contracts as its registers. A context is a VCPU by its number.
#[derive(Drop)]
pub struct Plic {
    registers: Registers,
    lines: [bool; 8],
}

impl Model for Plic {
    ghost use Rattle.std.specs.Prelude.{◌≡◌, ◌≤◌};
    ghost use Rattle.xv_bus.specs.Plic.{PlicUnit};
    ghost use Rattle.xv_plic.specs.Registers.{lines_of};

    ghost Value = { PlicUnit };

    ghost view = { λ p. p.registers };

    ghost invariant = { λ p. (p.lines ≡ lines_of p.registers) × (p.registers.contexts ≤ 8) };
}

impl Plic {
    /// A controller with that many contexts, at most 8, after a reset.
    pub fn new(contexts: u8) -> Plic
        requires most { contexts ≤ 8 }
        ensures { result ≡ plics.new_plic contexts }
    {
        let registers = Registers::new(contexts);
        let lines = registers.lines();
        Plic { registers, lines }
    }

    /// The gateways' step: each source whose line is up, bit k for source k, becomes pending,
    /// unless it is in service.
    pub fn lift(&mut self, sources: u64)
        requires { has_bit 0 sources ≡ false }
        ensures { self.new ≡ plics.lifted sources self.old }
    {
        self.registers.lift(sources);
        self.lines = self.registers.lines();
    }

    /// Whether the line of a context is up. That of one that isn't there never is.
    pub fn context_line(&self, context: u8) -> bool
        ensures { result ≡ plics.context_line self.now context }
    {
        let _contexts = self.registers.contexts();
        context < 8 && self.lines[context as usize]
    }

    /// The registers as plain data.
    pub fn state(&self) -> PlicState
        ensures registers { unit_of self.now.contexts result ≡ self.now }
        ensures held { plics.IsPlic self.now }
    {
        self.registers.state()
    }

    /// Puts these registers in the place of its own. The contexts stay.
    pub fn put_state(&mut self, state: &PlicState)
        requires { plics.IsPlic (unit_of self.old.contexts state.now) }
        ensures { self.new ≡ unit_of self.old.contexts state.now }
    {
        self.registers.put_state(state);
        self.lines = self.registers.lines();
    }
}

impl Device for Plic {
    ghost use Rattle.std.specs.Prelude.{false};
    ghost use Rattle.xv_bus.specs.Device.{over};
    ghost use Rattle.xv_bus.specs.Plic.{plic_accessed, plic_reset};

    ghost accessed = { λ plic flat at access. over flat (plic_accessed plic at access) };

    ghost is_up = { λ plic. false };

    ghost after_reset = { plic_reset };

    fn access<M: GuestMem>(&mut self, at: u64, access: Access, _mem: &mut M) -> Outcome {
        let outcome = self.registers.access(at, access);
        self.lines = self.registers.lines();
        outcome
    }

    fn line(&self) -> bool {
        false
    }

    #[tactic(auto, unfolding(xv_bus::specs::Plic::plic_reset))]
    fn reset(&mut self) {
        self.registers = Registers::new(self.registers.contexts());
        self.lines = self.registers.lines();
    }
}
