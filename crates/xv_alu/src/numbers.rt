//! Registers read as signed numbers and as words, and sums and comparisons.

ghost use Rattle.std.specs.Prelude.{◌≡◌, ℕ, ◌<◌, ◌≤◌, ◌+◌, ◌-◌, ◌*◌, ◌/◌, ◌%◌, ◌^◌, ℤ, pos, neg_ℤ};
ghost use Rattle.std.specs.Prelude.{◌≤ℤ◌, ◌<ℤ◌};
ghost use Rattle.xv_isa.specs.Results.{
  difference_of,
  less_signed,
  less_unsigned,
  residue,
  signed_at,
  sum_of,
  unsigned_at,
  word_extended,
};

// The low 32 bits.
pub(crate) fn low_word(n: u64) -> u64
    ensures value { result ≡ unsigned_at 32 n }
    ensures small { result < 2 ^ 32 }
{
    n % (1 << 32)
}

// The low 32 bits, their sign extended to 64.
#[tactic(auto, using(crate::proofs::Readings::word_of_low, crate::proofs::Readings::word_of_high))]
pub(crate) fn extended_word(n: u64) -> u64
    ensures { result ≡ word_extended n }
{
    let low = low_word(n);
    if low < 1 << 31 {
        low
    } else {
        low + (u64::MAX - 0xffff_ffff)
    }
}

// The two's complement reading of a register.
#[tactic(auto, using(crate::proofs::Readings::signed_is))]
pub(crate) fn signed(n: u64) -> i64
    ensures { result ≡ signed_at 64 n }
{
    n.cast_signed()
}

// The two's complement reading of the low 32 bits.
pub(crate) fn signed_word(n: u64) -> i64
    ensures value { result ≡ signed_at 32 n }
    ensures low { neg_ℤ (pos (2 ^ 31)) ≤ℤ result }
    ensures high { result <ℤ pos (2 ^ 31) }
{
    let low = low_word(n);
    if low < 1 << 31 {
        low as i64
    } else {
        low as i64 - (1 << 32)
    }
}

// The register that a signed number leaves.
#[tactic(auto, using(crate::proofs::Readings::residue_is))]
pub(crate) fn register_of(z: i64) -> u64
    ensures { result ≡ residue 64 z }
{
    z.cast_unsigned()
}

pub(crate) fn sum(a: u64, b: u64) -> u64
    ensures { result ≡ sum_of a b }
{
    a.wrapping_add(b)
}

#[tactic(auto, using(crate::proofs::Readings::difference_is))]
pub(crate) fn difference(a: u64, b: u64) -> u64
    ensures { result ≡ difference_of a b }
{
    a.wrapping_sub(b)
}

pub(crate) fn is_less_signed(a: u64, b: u64) -> u64
    ensures { result ≡ less_signed a b }
{
    if signed(a) < signed(b) { 1 } else { 0 }
}

pub(crate) fn is_less_unsigned(a: u64, b: u64) -> u64
    ensures { result ≡ less_unsigned a b }
{
    if a < b { 1 } else { 0 }
}
