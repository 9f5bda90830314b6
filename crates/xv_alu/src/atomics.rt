//! The lesser and the greater of two numbers, by each reading of a doubleword and of a word.

ghost use Rattle.std.specs.Prelude.{◌≡◌, ℕ};
ghost use Rattle.xv_isa.specs.Results.{
  greatest_signed,
  greatest_unsigned,
  least_signed,
  least_unsigned,
};

use crate::numbers::{low_word, signed, signed_word};

pub(crate) fn least(a: u64, b: u64) -> u64
    ensures { result ≡ least_signed 64 a b }
{
    if signed(b) < signed(a) { b } else { a }
}

pub(crate) fn greatest(a: u64, b: u64) -> u64
    ensures { result ≡ greatest_signed 64 a b }
{
    if signed(a) < signed(b) { b } else { a }
}

pub(crate) fn least_of_unsigned(a: u64, b: u64) -> u64
    ensures { result ≡ least_unsigned 64 a b }
{
    if b < a { b } else { a }
}

pub(crate) fn greatest_of_unsigned(a: u64, b: u64) -> u64
    ensures { result ≡ greatest_unsigned 64 a b }
{
    if a < b { b } else { a }
}

pub(crate) fn least_word(a: u64, b: u64) -> u64
    ensures { result ≡ least_signed 32 a b }
{
    if signed_word(b) < signed_word(a) {
        b
    } else {
        a
    }
}

pub(crate) fn greatest_word(a: u64, b: u64) -> u64
    ensures { result ≡ greatest_signed 32 a b }
{
    if signed_word(a) < signed_word(b) {
        b
    } else {
        a
    }
}

pub(crate) fn least_unsigned_word(a: u64, b: u64) -> u64
    ensures { result ≡ least_unsigned 32 a b }
{
    if low_word(b) < low_word(a) { b } else { a }
}

pub(crate) fn greatest_unsigned_word(a: u64, b: u64) -> u64
    ensures { result ≡ greatest_unsigned 32 a b }
{
    if low_word(a) < low_word(b) { b } else { a }
}
