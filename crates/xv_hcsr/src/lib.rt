//! The hypervisor's control and status registers behind one guest (Privileged Architecture
//! 20211203, section 8.2), with the values under which every guest runs. What a hart reads in them
//! is defined here too: which trap is delegated to the guest, which line a bit of hvip is, and what
//! time the guest sees.
//!
//! What of the standard is this project's profile: VSXL of hstatus, which is read-only, isn't held
//! here; interrupts 2, 6 and 10 are the only ones, so hvip and hideleg have no other bits.
#![tactic(auto)]

mod flags;

ghost use Rattle.std.specs.Prelude.{◌≡◌, ◌≢◌, ◌*◌, ◌<◌, ℕ};
ghost use Rattle.xv_base.specs.Bits.{has_bit};
ghost use Rattle.xv_hcsr.specs.Guest.{guest_hcsrs, guest_hgatp, IsForGuest};
ghost use Rattle.xv_hcsr.specs.Lines.{with_lines, software_line, timer_line, external_line};
ghost use Rattle.xv_hcsr.specs.Stage.{stage_mode, vmid_of, root_page};

use bitflags::Flags;
pub use flags::{GuestExceptions, GuestInterrupts, Hstatus};
use xv_base::GuestKey;

// MODE of hgatp: guest physical addresses of 41 bits
const SV39X4: u64 = 8;

// of hcounteren
const TM: u64 = 1 << 1;

/// The hypervisor CSRs that stand while one guest's VCPU runs, each as a read gives it. `htval` and
/// `htinst` are those of the last trap that left the guest.
#[derive(Clone, Copy, Debug, PartialEq, Eq)]
pub struct HCsrs {
    pub hstatus: u64,
    pub hedeleg: u64,
    pub hideleg: u64,
    pub hvip: u64,
    pub hgatp: u64,
    pub htimedelta: u64,
    pub hcounteren: u64,
    pub htval: u64,
    pub htinst: u64,
}

impl HCsrs {
    /// The registers for the guest with the key `vmid` behind the root table of number `root`. Its
    /// time is the host's clock and `delta`, modulo 2^64. No line is up.
    #[tactic(auto, unfolding(crate::proofs::Literals::guest_values))]
    pub fn for_guest(root: u8, vmid: GuestKey, delta: u64) -> HCsrs
        ensures values { result ≡ guest_hcsrs root vmid delta }
        ensures mode { stage_mode result ≡ 8 }
        ensures vmid { vmid_of result ≡ vmid }
        ensures root { root_page result ≡ 4 * root }
        ensures guest { root < 16 → IsForGuest result }
        ensures lines { result.hvip ≡ 0 }
    {
        HCsrs {
            hstatus: Hstatus::SPV.union(Hstatus::VTW).bits(),
            hedeleg: GuestExceptions::all().bits(),
            hideleg: GuestInterrupts::all().bits(),
            hvip: 0,
            hgatp: hgatp(root, vmid),
            htimedelta: delta,
            hcounteren: TM,
            htval: 0,
            htinst: 0,
        }
    }

    /// Raises and lowers the guest's three lines, as bits 2, 6 and 10 of hvip: of its software
    /// interrupt, its timer and its interrupt controller.
    #[tactic(auto, using(crate::proofs::LineLemmas::lines))]
    pub fn set_lines(&mut self, ssip: bool, timer: bool, external: bool)
        ensures lines { self.new
            ≡ record self.old { hvip = with_lines ssip timer external self.old.hvip } }
        ensures software { software_line self.new ≡ ssip }
        ensures timer { timer_line self.new ≡ timer }
        ensures external { external_line self.new ≡ external }
        ensures others { (k : ℕ) → k < 64 → k ≢ 2 → k ≢ 6 → k ≢ 10
            → has_bit k self.new.hvip ≡ has_bit k self.old.hvip }
        ensures guest { IsForGuest self.old → IsForGuest self.new }
    {
        let mut lines = GuestInterrupts::from_bits_retain(self.hvip);
        lines.set(GuestInterrupts::SOFTWARE, ssip);
        lines.set(GuestInterrupts::TIMER, timer);
        lines.set(GuestInterrupts::EXTERNAL, external);
        self.hvip = lines.bits();
    }
}

fn hgatp(root: u8, vmid: GuestKey) -> u64
    ensures { result ≡ guest_hgatp root vmid }
{
    (SV39X4 << 60) + ((vmid.0 as u64) << 44) + 4 * root as u64
}
