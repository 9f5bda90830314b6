//! Root tables by their numbers.
ghost use Rattle.std.specs.Prelude.{◌≡◌, ℕ, ◌<◌, true, false, IfSome, is_none, slice_index_or};
ghost use Rattle.xv_pool.specs.Resources.{all_out};

/// The least number whose root isn't out, or None where all are.
pub(crate) fn least_root(roots: &[bool; 16]) -> Option<u8>
    ensures found { IfSome result
        (λ root. (root < 16) × (slice_index_or roots.now root true ≡ false)) }
    ensures least { IfSome result
        (λ root. (k : ℕ) → k < root → slice_index_or roots.now k false ≡ true) }
    ensures none { is_none result ≡ all_out roots.now }
{
    for root in 0..16u8 {
        if !roots[root as usize] {
            return Some(root);
        }
    }
    None
}
