//! The register at each offset (chapter Memory Map).
ghost use Rattle.std.specs.Prelude.{◌≡◌, ◌-◌, ◌/◌, ◌<◌, ◌≤◌, IfSome};
ghost use Rattle.xv_bus.specs.Plic as plics;
ghost use Rattle.xv_plic.specs.Registers.{IsRegister};

use xv_bus::{Half, PlicRegister};

/// The register at an offset, or None where none is.
#[tactic(auto, unfolding(xv_bus::specs::Plic::plic_register))]
pub fn register_at(contexts: u8, at: u64) -> Option<PlicRegister>
    requires { contexts ≤ 8 }
    ensures register { result ≡ plics.plic_register contexts at }
    ensures there { IfSome result (IsRegister contexts) }
{
    let count = contexts as u64;
    #[tactic(auto, using(std::proofs::lemmas::Bool::Decides::nat_tests))]
    if is_within(0x4, 0x4, 63, at) {
        Some(PlicRegister::Priority(place(0x4, 0x4, at) + 1))
    } else if is_within(0x1000, 0x4, 1, at) {
        Some(PlicRegister::Pending(Half::Low))
    } else if is_within(0x1004, 0x4, 1, at) {
        Some(PlicRegister::Pending(Half::High))
    } else if is_within(0x2000, 0x80, count, at) {
        Some(PlicRegister::Enables(place(0x2000, 0x80, at), Half::Low))
    } else if is_within(0x2004, 0x80, count, at) {
        Some(PlicRegister::Enables(place(0x2004, 0x80, at), Half::High))
    } else if is_within(0x20_0000, 0x1000, count, at) {
        Some(PlicRegister::Threshold(place(0x20_0000, 0x1000, at)))
    } else if is_within(0x20_0004, 0x1000, count, at) {
        Some(PlicRegister::Claim(place(0x20_0004, 0x1000, at)))
    } else {
        None
    }
}

/// Whether an offset is that of one of `count` registers, the first at `first` and each `stride`
/// behind the one before.
fn is_within(first: u64, stride: u64, count: u64, at: u64) -> bool
    requires { 0 < stride }
    ensures { result ≡ plics.is_within first stride count at }
{
    first <= at && (at - first) % stride == 0 && (at - first) / stride < count
}

/// Which of them it is, from 0 on.
fn place(first: u64, stride: u64, at: u64) -> u8
    requires first { first ≤ at }
    requires stride { 0 < stride }
    requires small { (at - first) / stride < 64 }
    ensures { result ≡ (at - first) / stride }
{
    ((at - first) / stride) as u8
}
