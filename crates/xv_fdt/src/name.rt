//! Names of nodes and of properties.
ghost use Rattle.std.specs.Prelude.{◌≡◌, ◌≤◌, length, nat_le, nat_eq, Some, None, if◌then◌else◌};
ghost use Rattle.std.specs.Ordering.{nat_cmp, as_partial_cmp};
ghost use Rattle.std.specs.Cmp.Lexicographic.{pointwise, slice_cmp, nat_list_eq_equiv};
ghost use Rattle.std.specs.Cmp.Lexicographic.{nat_list_cmp_total, texts_ties, texts_po};
ghost use Rattle.std.specs.Cmp.{partial_equiv_from_equiv};
ghost use Rattle.std.proofs.Common.{refl};

use std::cmp::Ordering;
use std::marker::Model;

/// The greatest length of a name, in bytes.
const LONGEST: usize = 63;

/// 0 to 63 bytes, seen by contracts as the list of them. The name of the root is empty; that of
/// another node has its unit address, as `uart@10000000` (2.2.1). The places behind the bytes hold
/// 0, so that two equal names have equal fields.
#[derive(Clone, Copy, Debug)]
pub struct NodeName {
    bytes: [u8; 63],
    len: u8,
}

impl Model for NodeName {
    ghost use Rattle.std.specs.Prelude.{ℕ, List, length, take};
    ghost use Rattle.xv_base.specs.Padded.{IsPadded, padded, length-take_padded};
    ghost use Rattle.std.proofs.Common.{refl};

    ghost Value = { List ℕ };

    ghost view = { λ s. take s.len s.bytes };

    ghost invariant = { λ s. IsPadded 63 s.bytes s.len };

    ghost inverse = { λ bytes. record { bytes = padded 63 bytes; len = length bytes } };

    ghost inverse_ok = { λ s padding.
        Prim.rw (padding.zeros, length-take_padded 63 s.bytes s.len padding) refl };
}

impl NodeName {
    /// The name of these bytes, or None where they are more than 63.
    pub fn of(bytes: &[u8]) -> Option<NodeName>
        ensures { result ≡ (if nat_le (length bytes.now) 63 then Some bytes.now else None) }
    {
        if bytes.len() <= LONGEST {
            Some(short(bytes))
        } else {
            None
        }
    }

    /// The bytes of the name.
    pub fn bytes(&self) -> &[u8]
        ensures value { result.now ≡ self.now }
        ensures len { length result.now ≤ 63 }
    {
        &self.bytes[..self.len as usize]
    }
}

/// The name of at most 63 bytes.
pub(crate) fn short(bytes: &[u8]) -> NodeName
    requires { length bytes.now ≤ 63 }
    ensures { result ≡ bytes.now }
{
    let len = bytes.len();
    let mut array = [0; LONGEST];
    array[..len].copy_from_slice(bytes);
    NodeName {
        bytes: array,
        len: len as u8,
    }
}

impl PartialEq for NodeName {
    ghost eq = { pointwise nat_eq };

    ghost laws = { partial_equiv_from_equiv nat_list_eq_equiv };

    fn eq(&self, other: &NodeName) -> bool {
        self.bytes() == other.bytes()
    }
}

impl Eq for NodeName {
    ghost laws = { nat_list_eq_equiv };
}

impl PartialOrd for NodeName {
    ghost partial_cmp = { λ x y. Some (slice_cmp nat_cmp x y) };

    ghost laws = { texts_po };

    fn partial_cmp(&self, other: &NodeName) -> Option<Ordering> {
        Some(self.cmp(other))
    }
}

impl Ord for NodeName {
    ghost cmp = { slice_cmp nat_cmp };

    ghost total = { nat_list_cmp_total };

    ghost matches_partial_cmp = { λ x y. refl };

    ghost matches_eq = { texts_ties };

    fn cmp(&self, other: &NodeName) -> Ordering {
        self.bytes().cmp(other.bytes())
    }
}
