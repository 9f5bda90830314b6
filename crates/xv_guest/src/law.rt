//! Laws over what a guest holds, and its memory.
ghost use Rattle.std.specs.Prelude.{◌≡◌, ℕ, ◌+◌, ◌*◌, ◌≤◌, List, Some, length};
ghost use Rattle.xv_gstage.specs.Own.{frame_of};
ghost use Rattle.xv_lone.specs.Memory.{store_place};
ghost use Rattle.xv_mem.specs.Bytes.{put};
ghost use Rattle.xv_guest.specs.Held.{Held, IsHeld, Same, Within, memory_of};

/// Guests are local: where the bytes of what a guest holds stay, its memory and the order of its
/// tables stay, whatever else changes.
pub fn guests_are_local()
    ensures memory { (old new : List ℕ) (g : Held) → Same old new g
        → memory_of new g ≡ memory_of old g }
    ensures held { (old new : List ℕ) (g : Held) → Same old new g → length new ≡ length old
        → IsHeld old g → IsHeld new g }
{}

/// Stores are local: what is put into the frame of a page is put there in the guest's memory, no
/// frame outside of what the guest holds changes, and its tables are in order as before.
pub fn stores_are_local()
    ensures memory { (g : Held) (region index frame : ℕ) (bytes : List ℕ) (offset : ℕ)
        (piece : List ℕ) → frame_of g.regions g.frames region index ≡ Some frame
        → IsHeld bytes g → offset + length piece ≤ 4096
        → memory_of (put bytes (4096 * frame + offset) piece) g
        ≡ store_place (memory_of bytes g)
        (record { region = region; offset = 4096 * index + offset }) piece }
    ensures within { (g : Held) (region index frame : ℕ) (bytes : List ℕ) (offset : ℕ)
        (piece : List ℕ) → frame_of g.regions g.frames region index ≡ Some frame
        → IsHeld bytes g → offset + length piece ≤ 4096
        → Within g bytes (put bytes (4096 * frame + offset) piece) }
    ensures held { (g : Held) (region index frame : ℕ) (bytes : List ℕ) (offset : ℕ)
        (piece : List ℕ) → frame_of g.regions g.frames region index ≡ Some frame
        → IsHeld bytes g → offset + length piece ≤ 4096
        → IsHeld (put bytes (4096 * frame + offset) piece) g }
{}
