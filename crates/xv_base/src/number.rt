//! The numbers that a script may give.
ghost use Rattle.std.specs.Prelude.{◌≡◌, ◌≤◌, IsTrue, length};
ghost use Rattle.std.specs.Str.Parse.{digits_value};
ghost use Rattle.std.specs.List.{list_all};
ghost use Rattle.std.specs.Char.{is_digit};
ghost use Rattle.xv_base.specs.Number.{is_numeral, below_limit, numeral_value, number_value};

use crate::name::has_length;

/// The number that the bytes write, in decimal or behind `0x` in hexadecimal, or None where they
/// write none or one of 2^64 and more.
#[tactic(auto, unfolding(crate::specs::Number::number_value))]
pub fn number_of(bytes: &[u8]) -> Option<u64>
    ensures { result ≡ number_value bytes.now }
{
    if bytes.starts_with(b"0x") {
        numeral_of(&bytes[2..], 16, 16)
    } else {
        numeral_of(bytes, 10, 20)
    }
}

#[tactic(auto, unfolding(crate::specs::Number::numeral_value))]
fn numeral_of(digits: &[u8], radix: u32, most: usize) -> Option<u64>
    requires least { 2 ≤ radix }
    requires greatest { radix ≤ 36 }
    ensures { result ≡ numeral_value radix most digits.now }
{
    #[tactic(auto, using(crate::proofs::NumberLemmas::numerals))]
    if is_numeral(digits, radix, most) {
        value_of(digits, radix)
    } else {
        None
    }
}

fn value_of(digits: &[u8], radix: u32) -> Option<u64>
    requires least { 2 ≤ radix }
    requires greatest { radix ≤ 36 }
    requires digits { IsTrue (list_all (λ digit. is_digit digit radix) digits.now) }
    requires nonempty { 1 ≤ length digits.now }
    ensures { result ≡ below_limit (digits_value radix digits.now) }
{
    let Ok(text) = str::from_utf8(digits) else {
        unreachable!("digits are below 128");
    };
    u64::from_str_radix(text, radix).ok()
}

fn is_numeral(digits: &[u8], radix: u32, most: usize) -> bool
    requires least { 2 ≤ radix }
    requires greatest { radix ≤ 36 }
    ensures { result ≡ is_numeral radix most digits.now }
{
    has_length(digits, most) && are_digits(digits, radix)
}

fn are_digits(digits: &[u8], radix: u32) -> bool
    requires least { 2 ≤ radix }
    requires greatest { radix ≤ 36 }
    ensures { result ≡ list_all (λ digit. is_digit digit radix) digits.now }
{
    digits
        .iter()
        .all(|digit| char::from(*digit).is_digit(radix))
}
