//! Shifts, by the low 6 bits of the amount, or the low 5 on words.

ghost use Rattle.std.specs.Prelude.{◌≡◌, ℕ, ◌<◌, ◌+◌, ◌*◌, ◌/◌, ◌%◌, ◌^◌};
ghost use Rattle.xv_isa.specs.Results.{
  shift_left,
  shift_left_word,
  shift_right,
  shift_right_signed,
  shift_right_word,
  shift_right_word_signed,
};

use crate::numbers::{extended_word, low_word, register_of, signed, signed_word};

pub(crate) fn left(a: u64, b: u64) -> u64
    ensures { result ≡ shift_left a b }
{
    a << (b % 64)
}

pub(crate) fn right(a: u64, b: u64) -> u64
    ensures { result ≡ shift_right a b }
{
    a >> (b % 64)
}

pub(crate) fn right_signed(a: u64, b: u64) -> u64
    ensures { result ≡ shift_right_signed a b }
{
    register_of(signed(a) >> (b % 64))
}

#[tactic(auto, using(crate::proofs::Readings::word_of_wrapped))]
pub(crate) fn left_word(a: u64, b: u64) -> u64
    ensures { result ≡ shift_left_word a b }
{
    extended_word(a << (b % 32))
}

pub(crate) fn right_word(a: u64, b: u64) -> u64
    ensures { result ≡ shift_right_word a b }
{
    extended_word(low_word(a) >> (b % 32))
}

pub(crate) fn right_word_signed(a: u64, b: u64) -> u64
    ensures { result ≡ shift_right_word_signed a b }
{
    register_of(signed_word(a) >> (b % 32))
}
