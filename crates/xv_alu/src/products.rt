//! Products: the low half, and the high halves by the signs of the factors.

ghost use Rattle.std.specs.Prelude.{◌≡◌, ℕ, ◌<◌, ◌+◌, ◌*◌, ◌/◌, ◌%◌, ◌^◌, pos, ◌*ℤ◌};
ghost use Rattle.xv_isa.specs.Results.{high_half, product_of, signed_at, word_extended};

use crate::numbers::{extended_word, register_of, signed};

pub(crate) fn product(a: u64, b: u64) -> u64
    ensures { result ≡ product_of a b }
{
    a.wrapping_mul(b)
}

#[tactic(auto, using(crate::proofs::Readings::word_of_wrapped))]
pub(crate) fn product_word(a: u64, b: u64) -> u64
    ensures { result ≡ word_extended (a * b) }
{
    extended_word(a.wrapping_mul(b))
}

// The high half of the product of two signed numbers.
fn high(x: i64, y: i64) -> u64
    ensures { result ≡ high_half (x *ℤ y) }
{
    register_of((x as i128 * y as i128 >> 64) as i64)
}

pub(crate) fn high_signed(a: u64, b: u64) -> u64
    ensures { result ≡ high_half (signed_at 64 a *ℤ signed_at 64 b) }
{
    high(signed(a), signed(b))
}

pub(crate) fn high_signed_unsigned(a: u64, b: u64) -> u64
    ensures { result ≡ high_half (signed_at 64 a *ℤ pos b) }
{
    register_of((signed(a) as i128 * b as i128 >> 64) as i64)
}

pub(crate) fn high_unsigned(a: u64, b: u64) -> u64
    ensures { result ≡ a * b / 2 ^ 64 }
{
    (a as u128 * b as u128 >> 64) as u64
}
