//! Which traps the guest takes by itself (Privileged Architecture 20211203, section 8.2.2).
ghost use Rattle.std.specs.Prelude.{◌≡◌};
ghost use Rattle.xv_base.specs.Bits.{has_bit};
ghost use Rattle.xv_hcsr.specs.Delegation.{is_delegated};

use xv_csr::cause::INTERRUPT;
use xv_hcsr::HCsrs;

/// Whether a trap with this cause enters the guest: its bit of hedeleg says so, or for an
/// interrupt, whose cause is 2^63 and its number, the number's bit of hideleg.
#[tactic(auto, unfolding(xv_hcsr::specs::Delegation::is_delegated))]
pub fn delegated(h: &HCsrs, cause: u64) -> bool
    ensures { result ≡ is_delegated h.now cause }
{
    if cause >= INTERRUPT {
        has_bit(h.hideleg, cause % INTERRUPT)
    } else {
        has_bit(h.hedeleg, cause)
    }
}

// A number of 64 bits has no bit past its last.
fn has_bit(number: u64, bit: u64) -> bool
    ensures { result ≡ has_bit bit number }
{
    bit < 64 && xv_base::has_bit(number, bit as u32)
}

#[cfg(test)]
mod tests;
