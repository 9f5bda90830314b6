//! Digits of hexadecimal text, all in lower case.
ghost use Rattle.std.specs.Prelude.{◌≡◌, ◌<◌};
ghost use Rattle.xv_base.specs.Text.{hex_digit, hex_digits, hex16};

/// The digit of a number below 16.
fn digit(value: u8) -> u8
    requires { value < 16 }
    ensures { result ≡ hex_digit value }
{
    if value < 10 {
        b'0' + value
    } else {
        b'a' + (value - 10)
    }
}

/// A byte in two digits.
#[tactic(auto, using(crate::proofs::TextLemmas::hex_digits_byte))]
pub(crate) fn two_digits(byte: u8) -> [u8; 2]
    ensures { result ≡ hex_digits 2 byte }
{
    [digit(byte / 16), digit(byte % 16)]
}

/// A number of 64 bits in sixteen digits.
pub(crate) fn sixteen_digits(value: u64) -> [u8; 16]
    ensures { result ≡ hex16 value }
{
    let mut digits = [b'0'; 16];
    let mut rest = value;
    for place in (0..16).rev() {
        digits[place] = digit((rest % 16) as u8);
        rest /= 16;
    }
    digits
}
