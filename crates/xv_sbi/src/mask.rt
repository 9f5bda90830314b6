//! Which VCPUs a mask names (Supervisor Binary Interface 1.0, section 3.1).
ghost use Rattle.std.specs.Prelude.{◌≡◌, ◌≢◌, ℕ, ◌<◌, ◌≤◌, true, false};
ghost use Rattle.xv_sbi.specs.Mask.{mask_ok, bits_ok, bit_ok, names, all_vcpus};

// the base of a mask that names every VCPU
const ALL_VCPUS: u64 = u64::MAX;

/// Whether each VCPU that the mask names is there, of `vcpus` with the numbers from 0 on. A mask
/// names VCPU `base + i` for each bit i that is set, as whole numbers, and every VCPU where the
/// base is 2^64 - 1.
#[tactic(auto, unfolding(crate::specs::Mask::mask_ok))]
pub fn mask_ok(mask: u64, base: u64, vcpus: u8) -> bool
    ensures answer { result ≡ mask_ok mask base vcpus }
    ensures named { result ≡ true → base ≢ all_vcpus
        → (vcpu : ℕ) → names mask base vcpu ≡ true → vcpu < vcpus }
    ensures missing { result ≡ false → (base ≢ all_vcpus)
        × ((vcpu : ℕ) × (vcpus ≤ vcpu) × (names mask base vcpu ≡ true)) }
{
    base == ALL_VCPUS || bits_ok(mask, base, vcpus)
}

fn bits_ok(mask: u64, base: u64, vcpus: u8) -> bool
    ensures { result ≡ bits_ok 64 mask base vcpus }
{
    for bit in 0..64u64 {
        if !bit_ok(mask, base, vcpus, bit) {
            return false;
        }
    }
    true
}

// A base that is the number of a VCPU is small, so the sum doesn't wrap.
fn bit_ok(mask: u64, base: u64, vcpus: u8, bit: u64) -> bool
    requires { bit < 64 }
    ensures { result ≡ bit_ok mask base vcpus bit }
{
    let is_set = mask >> bit & 1 == 1;
    !is_set || (base < vcpus as u64 && base + bit < vcpus as u64)
}
