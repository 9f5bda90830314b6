//! The digest of a guest's memory, frame by frame.
ghost use Rattle.std.specs.Prelude.{◌≡◌, ℕ, List, ◌++◌};
ghost use Rattle.std.specs.List.{concat};
ghost use Rattle.sha2.specs.Hashers.{Holds256};
ghost use Rattle.sha2.specs.Sha256.{sha256};
ghost use Rattle.xv_pte.specs.GStage.{frame_bytes};
ghost use Rattle.xv_guest.specs.Frames.{IsInside};
ghost use Rattle.xv_guest.specs.Guest.{held_of, lone_of};
ghost use Rattle.xv_guest.specs.Held.{IsHeld, memory_of, region_bytes};

use crate::Guest;
use crate::held::{Held, PAGE};
use sha2::{Digest, Sha256};
use xv_mem::HostMem;

/// The bytes of a frame of host memory.
fn frame_bytes(mem: &HostMem, frame: u64) -> &[u8]
    requires { IsInside mem.now frame }
    ensures { result.now ≡ frame_bytes mem.now frame }
{
    let _frames = mem.frames();
    mem.lend(PAGE * frame, PAGE as usize)
}

impl Guest {
    /// The SHA-256 of the bytes of the guest's regions, in their order. An alias and a device have
    /// no bytes of their own.
    pub fn digest(&self, mem: &HostMem) -> [u8; 32]
        requires held { IsHeld mem.now (held_of self.now) }
        ensures { result ≡ sha256 (concat (lone_of self.now mem.now).memory) }
    {
        self.held().digest(mem)
    }
}

impl<'a> Held<'a> {
    fn digest(&self, mem: &HostMem) -> [u8; 32]
        requires held { IsHeld mem.now self.now }
        ensures { result ≡ sha256 (concat (memory_of mem.now self.now)) }
    {
        let mut hasher = Sha256::new();
        let count = self.map().regions().len();
        for region in 0..count {
            self.feed_region(mem, region as u8, &mut hasher);
        }
        hasher.finalize()
    }

    /// Feeds the bytes of a region, where it has its own.
    fn feed_region(&self, mem: &HostMem, region: u8, hasher: &mut Sha256)
        requires held { IsHeld mem.now self.now }
        ensures { (fed : List ℕ) → Holds256 hasher.old fed → Holds256 hasher.new
            (fed ++ region_bytes mem.now self.now region) }
    {
        let mut index = 0;
        while let Some(frame) = self.frame(region, index) {
            hasher.update(frame_bytes(mem, frame));
            index += 1;
        }
    }
}
