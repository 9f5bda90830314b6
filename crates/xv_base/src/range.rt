//! Ranges of addresses. The end of a range may lie past 2^64, so distances are compared, not ends.
ghost use Rattle.std.specs.Prelude.{◌≡◌};
ghost use Rattle.xv_base.specs.Range.{lies_in, meets};

use crate::keys::Span;

/// Whether two ranges share a byte.
pub fn meets(a: &Span, b: &Span) -> bool
    ensures shared { result ≡ meets a.now b.now }
{
    if a.start <= b.start {
        b.len != 0 && b.start - a.start < a.len
    } else {
        a.len != 0 && a.start - b.start < b.len
    }
}

/// Whether the inner range begins and ends within the outer one.
pub fn lies_in(inner: &Span, outer: &Span) -> bool
    ensures inside { result ≡ lies_in inner.now outer.now }
{
    outer.start <= inner.start
        && inner.start - outer.start <= outer.len
        && inner.len <= outer.len - (inner.start - outer.start)
}
