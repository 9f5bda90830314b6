//! A root and frames, made zeros.
ghost use Rattle.std.specs.Prelude.{◌≡◌, ◌≢◌, ℕ, ◌+◌, ◌*◌, ◌/◌, ◌≤◌, length, []};
ghost use Rattle.xv_gstage.specs.Memory.{AreInside, AreZero, IsZeroRoot, SameOutside};

use xv_mem::HostMem;

/// Makes a root and these frames zeros, so that the root leads nowhere.
pub fn unmap_all(mem: &mut HostMem, root: u8, frames: &[u32])
    requires inside { AreInside (length mem.old) root frames.now }
    ensures root { IsZeroRoot mem.new root }
    ensures frames { AreZero mem.new frames.now }
    ensures outside { SameOutside mem.old mem.new root frames.now }
{
    zero_root(mem, root);
    zero_frames(mem, root, frames);
}

/// Makes the four frames of a root zeros.
fn zero_root(mem: &mut HostMem, root: u8)
    requires { 16384 * root + 16384 ≤ length mem.old }
    ensures root { IsZeroRoot mem.new root }
    ensures outside { SameOutside mem.old mem.new root [] }
{
    for frame in 4 * root as u32..4 * root as u32 + 4 {
        mem.zero_frame(frame);
    }
}

/// Makes these frames zeros. What is zero of the root stays zero.
fn zero_frames(mem: &mut HostMem, root: u8, frames: &[u32])
    requires inside { AreInside (length mem.old) root frames.now }
    requires root { IsZeroRoot mem.old root }
    ensures root { IsZeroRoot mem.new root }
    ensures frames { AreZero mem.new frames.now }
    ensures outside { SameOutside mem.old mem.new root frames.now }
{
    for frame in frames {
        mem.zero_frame(*frame);
    }
}
