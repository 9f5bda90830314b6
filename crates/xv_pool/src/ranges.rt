//! Ranges of the reserved area that are held.
ghost use Rattle.std.specs.Prelude.{◌≡◌, ◌<◌, Contains, IfNone, IfSome, length, slice_index_or};
ghost use Rattle.std.specs.List.{list_any};
ghost use Rattle.xv_base.specs.Range.{meets_one};

use xv_base::{Span, meets};

/// Whether one of the ranges shares a byte with a held one.
pub(crate) fn any_is_held(held: &[Span], ranges: &[Span]) -> bool
    ensures { result ≡ list_any (meets_one held.now) ranges.now }
{
    ranges.iter().any(|range| is_held(held, range))
}

/// Whether the range shares a byte with a held one.
pub(crate) fn is_held(held: &[Span], range: &Span) -> bool
    ensures { result ≡ meets_one held.now range.now }
{
    held.iter().any(|other| meets(range, other))
}

/// The first place of a held range.
pub(crate) fn place_of(held: &[Span], range: Span) -> Option<usize>
    ensures found { IfSome result (λ place. (place < length held.now)
        × (slice_index_or held.now place range ≡ range)) }
    ensures none { IfNone result (¬ Contains held.now range) }
{
    for (place, other) in held.iter().enumerate() {
        if *other == range {
            return Some(place);
        }
    }
    None
}
