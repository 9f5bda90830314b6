//! Frames of host memory that are made zeros.
ghost use Rattle.std.specs.Prelude.{◌≡◌, ℕ, ◌+◌, ◌*◌, ◌^◌, ◌<◌, ◌≤◌, ◌∷◌, [], length};
ghost use Rattle.xv_pool.specs.FrameList.{up_from};
ghost use Rattle.xv_gstage.specs.Own.{reserved_frames, kind_reserved, pages};
ghost use Rattle.xv_guest.specs.Frames.{AreCleared, IsInside, hits};

use xv_mem::HostMem;
use xv_region::{Kind, Region};

/// Bytes in a frame of host memory.
const FRAME_SIZE: u64 = 4096;

/// Makes a frame of the memory zero.
fn clear_one(mem: &mut HostMem, frame: u64)
    requires { IsInside mem.old frame }
    ensures { AreCleared mem.old mem.new (frame ∷ []) }
{
    if frame < mem.frames() as u64 {
        mem.zero_frame(frame as u32);
    } else {
        unreachable!("the frame lies in the memory");
    }
}

/// Makes `count` frames from the first on zero.
fn clear_from(mem: &mut HostMem, first: u64, count: u64)
    requires inside { 4096 * (first + count) ≤ length mem.old }
    requires small { first + count < 2 ^ 64 }
    ensures { AreCleared mem.old mem.new (up_from first count) }
{
    for place in 0..count {
        clear_one(mem, first + place);
    }
}

/// Makes the host's bytes of a region zero, where it is reserved.
fn clear_region(mem: &mut HostMem, region: &Region)
    requires { (frame : ℕ) → 0 < hits frame (kind_reserved region.now.kind (pages region.now))
        → IsInside mem.old frame }
    ensures { AreCleared mem.old mem.new (kind_reserved region.now.kind (pages region.now)) }
{
    match region.kind {
        Kind::Reserved { host } => {
            if region.size >= FRAME_SIZE {
                clear_from(mem, host / FRAME_SIZE, region.size / FRAME_SIZE);
            }
        }
        Kind::Ram => {}
        Kind::Rom => {}
        Kind::Alias { target: _ } => {}
        Kind::Device(_) => {}
    }
}

/// Makes the host's bytes of the reserved regions zero.
pub(crate) fn clear_reserved(mem: &mut HostMem, regions: &[Region])
    requires { (frame : ℕ) → 0 < hits frame (reserved_frames regions.now)
        → IsInside mem.old frame }
    ensures { AreCleared mem.old mem.new (reserved_frames regions.now) }
{
    for region in regions {
        clear_region(mem, region);
    }
}
