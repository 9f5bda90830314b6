//! Laws over the walk of a guest physical address.
ghost use Rattle.std.specs.Prelude.{◌≡◌, ◌↔◌, ℕ, ◌+◌, ◌*◌, ◌<◌, List};
ghost use Rattle.xv_pte.specs.GStage.{IsTableOf, SameFrames, SameTables, offset_by, walked};

/// Walks are local: where two memories have the same words in a root and in its tables, which they
/// do where they have the same frames, every address leads alike, and over the same tables.
#[tactic(auto, using(crate::proofs::WalkLocal::locality))]
pub fn walks_are_local()
    ensures walks { (old new : List ℕ) (root : ℕ) → SameTables old new root → (gpa : ℕ)
        → walked new root gpa ≡ walked old root gpa }
    ensures tables { (old new : List ℕ) (root : ℕ) → SameTables old new root → (table : ℕ)
        → IsTableOf new root table ↔ IsTableOf old root table }
    ensures frames { (old new : List ℕ) (root : ℕ) → SameFrames old new root
        → SameTables old new root }
{}

/// Walks go by pages: an address in a page leads to the byte of the page's frame that is its own.
#[tactic(auto, using(crate::proofs::WalkPages::walked_in_page))]
pub fn walks_go_by_pages()
    ensures { (bytes : List ℕ) (root page offset : ℕ) → offset < 4096
        → walked bytes root (4096 * page + offset)
        ≡ offset_by offset (walked bytes root (4096 * page)) }
{}
