//! Laws over the tables of a guest.
ghost use Rattle.std.specs.Prelude.{◌≡◌, ◌↔◌, ℕ, ◌+◌, ◌*◌, ◌≤◌, true, List, IsTrue, None};
ghost use Rattle.std.specs.Prelude.{Some, length};
ghost use Rattle.std.specs.List.{Contains};
ghost use Rattle.xv_base.specs.declared.keys.Span.{Span};
ghost use Rattle.xv_pte.specs.declared.g_entry.Mapping.{Mapping};
ghost use Rattle.xv_pte.specs.GStage.{IsTableOf};
ghost use Rattle.xv_region.specs.declared.plan.Region.{Region};
ghost use Rattle.xv_region.specs.Rules.{Accepted, are_sound, first_fault};
ghost use Rattle.xv_gstage.specs.Memory.{SameGround, SameWalks};
ghost use Rattle.xv_gstage.specs.Own.{is_memory_page, own, pages_of, reserved_frames};
ghost use Rattle.xv_gstage.specs.Own.{table_frames};
ghost use Rattle.xv_gstage.specs.Tidy.{Tidy};

/// Tables are local: where two memories have the same frames of a root and of its list of tables,
/// they are in order in both or in neither, and where they are, every address is led alike and over
/// the same tables.
pub fn tables_are_local()
    ensures tidy { (old new : List ℕ) (root : ℕ) (regions : List Region) (frames : List ℕ)
        (used : ℕ) → SameGround old new root (table_frames regions frames)
        → Tidy new root regions frames used ↔ Tidy old root regions frames used }
    ensures walks { (old new : List ℕ) (root : ℕ) (regions : List Region) (frames : List ℕ)
        (used : ℕ) → SameGround old new root (table_frames regions frames)
        → Tidy old root regions frames used → SameWalks old new root }
    ensures tables { (old new : List ℕ) (root : ℕ) (regions : List Region) (frames : List ℕ)
        (used : ℕ) → SameGround old new root (table_frames regions frames)
        → Tidy old root regions frames used
        → (table : ℕ) → IsTableOf new root table ↔ IsTableOf old root table }
{}

/// Exactly the pages of memory have an own frame, where the list has a frame for each page.
#[tactic(auto, using(crate::proofs::LocalLemmas::owning))]
pub fn pages_have_frames()
    ensures { (regions : List Region) (frames : List ℕ) (page : ℕ) → Accepted regions
        → pages_of regions ≤ length frames
        → ((mapping : Mapping) × (own regions frames page ≡ Some mapping))
        ↔ (is_memory_page regions page ≡ true) }
{}

/// Reserved frames lie in the area over which the regions were judged.
pub fn reserved_frames_lie_in_the_area()
    ensures { (area : Span) (regions : List Region) (frame : ℕ) → IsTrue (are_sound regions)
        → first_fault area regions ≡ None → Contains (reserved_frames regions) frame
        → (area.start ≤ 4096 * frame) × (4096 * frame + 4096 ≤ area.start + area.len) }
{}
