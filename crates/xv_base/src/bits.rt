//! Bits of a number of 64 bits by their places.
ghost use Rattle.std.specs.Prelude.{◌≡◌, ◌<◌};
ghost use Rattle.xv_base.specs.Bits.{has_bit};

/// Whether the bit of this place, counted from the lowest, 0, is 1.
pub fn has_bit(number: u64, bit: u32) -> bool
    requires { bit < 64 }
    ensures { result ≡ has_bit bit number }
{
    (number >> bit) & 1 == 1
}
