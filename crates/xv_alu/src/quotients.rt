//! Quotients and remainders, rounded towards zero. By zero a quotient is all ones and a remainder
//! the dividend; the least number by -1 is itself, with remainder 0.

ghost use Rattle.std.specs.Prelude.{◌≡◌, ℕ, ◌<◌, ◌+◌, ◌*◌, ◌/◌, ◌%◌, ◌^◌};
ghost use Rattle.std.specs.Int.{IsNonZero, w64};
ghost use Rattle.std.specs.Int.RustNames.{int_div};
ghost use Rattle.xv_isa.specs.Results.{
  residue,
  quotient_signed,
  quotient_unsigned,
  quotient_word_signed,
  quotient_word_unsigned,
  remainder_signed,
  remainder_unsigned,
  remainder_word_signed,
  remainder_word_unsigned,
};

use crate::numbers::{extended_word, low_word, register_of, signed, signed_word};

// The register of the quotient of two signed numbers.
fn divided(x: i64, y: i64) -> u64
    requires { IsNonZero w64 y }
    ensures { result ≡ residue 64 (int_div x y) }
{
    register_of(x.wrapping_div(y))
}

pub(crate) fn quotient(a: u64, b: u64) -> u64
    ensures { result ≡ quotient_signed a b }
{
    if b == 0 {
        return u64::MAX;
    }
    divided(signed(a), signed(b))
}

pub(crate) fn quotient_of_unsigned(a: u64, b: u64) -> u64
    ensures { result ≡ quotient_unsigned a b }
{
    if b == 0 { u64::MAX } else { a / b }
}

pub(crate) fn remainder(a: u64, b: u64) -> u64
    ensures { result ≡ remainder_signed a b }
{
    if b == 0 {
        return a;
    }
    register_of(signed(a).wrapping_rem(signed(b)))
}

pub(crate) fn remainder_of_unsigned(a: u64, b: u64) -> u64
    ensures { result ≡ remainder_unsigned a b }
{
    if b == 0 { a } else { a % b }
}

pub(crate) fn quotient_word(a: u64, b: u64) -> u64
    ensures { result ≡ quotient_word_signed a b }
{
    if low_word(b) == 0 {
        return u64::MAX;
    }
    extended_word(divided(signed_word(a), signed_word(b)))
}

pub(crate) fn quotient_of_unsigned_word(a: u64, b: u64) -> u64
    ensures { result ≡ quotient_word_unsigned a b }
{
    let divisor = low_word(b);
    if divisor == 0 {
        return u64::MAX;
    }
    extended_word(low_word(a) / divisor)
}

pub(crate) fn remainder_word(a: u64, b: u64) -> u64
    ensures { result ≡ remainder_word_signed a b }
{
    if low_word(b) == 0 {
        return extended_word(a);
    }
    register_of(signed_word(a).wrapping_rem(signed_word(b)))
}

pub(crate) fn remainder_of_unsigned_word(a: u64, b: u64) -> u64
    ensures { result ≡ remainder_word_unsigned a b }
{
    let divisor = low_word(b);
    if divisor == 0 {
        return extended_word(a);
    }
    extended_word(low_word(a) % divisor)
}
