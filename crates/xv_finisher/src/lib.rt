//! The finisher: a device of one register, after SiFive's test finisher, by which a guest halts or
//! starts again.
#![tactic(auto)]

ghost use Rattle.std.specs.Prelude.{◌≡◌, ◌^◌, ◌<◌};
ghost use Rattle.xv_bus.specs.Access.{Fits};
ghost use Rattle.xv_bus.specs.Finisher as finishers;

use xv_bus::{Access, Device, Ending, GuestMem, Outcome, Width};

/// What the low half of a word says: the guest has passed.
const PASS: u64 = 0x5555;

/// It has failed, with the code of the high half.
const FAIL: u64 = 0x3333;

/// It starts again.
const RESET: u64 = 0x7777;

/// The finisher, which holds nothing, and whose line is always down.
#[derive(Clone, Copy, Debug, PartialEq, Eq)]
pub struct Finisher;

impl Finisher {
    /// A finisher.
    pub fn new() -> Finisher {
        Finisher
    }
}

impl Device for Finisher {
    ghost use Rattle.std.specs.Prelude.{false};
    ghost use Rattle.xv_bus.specs.Device.{answer, over};
    ghost use Rattle.xv_bus.specs.Finisher.{finisher_outcome};

    ghost accessed = { λ finisher flat at access.
        over flat (answer finisher (finisher_outcome at access)) };

    ghost is_up = { λ finisher. false };

    ghost after_reset = { λ finisher. finisher };

    fn access<M: GuestMem>(&mut self, at: u64, access: Access, _mem: &mut M) -> Outcome {
        outcome_of(at, access)
    }

    fn line(&self) -> bool {
        false
    }

    fn reset(&mut self) {}
}

/// What an access at an offset comes to.
#[tactic(auto, unfolding(xv_bus::specs::Finisher::finisher_outcome))]
fn outcome_of(at: u64, access: Access) -> Outcome
    requires { Fits access }
    ensures { result ≡ finishers.finisher_outcome at access }
{
    if at % 4 != 0 {
        return Outcome::Refused;
    }
    match access {
        Access::Load(Width::W4) => Outcome::Value(0),
        Access::Store(Width::W4, word) => { if at == 0 { ended(word) } else { Outcome::Done } }
        _ => Outcome::Refused,
    }
}

/// What a word that is written does.
#[tactic(auto, unfolding(xv_bus::specs::Finisher::ended))]
fn ended(word: u64) -> Outcome
    requires { word < 2 ^ 32 }
    ensures { result ≡ finishers.ended word }
{
    match word % (1 << 16) {
        PASS => Outcome::Halt(Ending::Pass),
        FAIL => Outcome::Halt(Ending::Fail((word >> 16) as u16)),
        RESET => Outcome::Reboot,
        _ => Outcome::Done,
    }
}

#[cfg(test)]
mod tests;
