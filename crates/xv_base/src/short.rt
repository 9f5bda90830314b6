//! A short list of bytes in an array of its own, so that names are copied and take no memory.
ghost use Rattle.std.specs.Prelude.{◌≡◌, ◌≤◌, length, nat_eq};
ghost use Rattle.std.specs.Hash as fed;
ghost use Rattle.std.specs.Cmp.Lexicographic.{pointwise, nat_list_eq_equiv};
ghost use Rattle.std.specs.Cmp.{partial_equiv_from_equiv};
ghost use Rattle.std.specs.Cmp.Rules.{hashing};
ghost use Rattle.std.proofs.Common.{rules};

use std::hash::{Hash, Hasher};
use std::marker::Model;

/// At most `N` bytes, seen by contracts as the list of them. The places after them hold 0, so that
/// two equal lists have equal fields.
#[derive(Clone, Copy, Debug)]
pub struct Short<const N: usize> {
    bytes: [u8; N],
    len: usize,
}

impl<const N: usize> Model for Short<N> {
    ghost use Rattle.std.specs.Prelude.{ℕ, List, length, take};
    ghost use Rattle.xv_base.specs.Padded.{IsPadded, padded, length-take_padded};
    ghost use Rattle.std.proofs.Common.{refl};

    ghost Value = { List ℕ };

    ghost view = { λ s. take s.len s.bytes };

    ghost invariant = { λ s. IsPadded N s.bytes s.len };

    ghost inverse = { λ bytes. record { bytes = padded N bytes; len = length bytes } };

    ghost inverse_ok = { λ s padding.
        Prim.rw (padding.zeros, length-take_padded N s.bytes s.len padding) refl };
}

impl<const N: usize> Short<N> {
    pub fn of(bytes: &[u8]) -> Short<N>
        requires { length bytes.now ≤ N }
        ensures { result ≡ bytes.now }
    {
        let len = bytes.len();
        let mut array = [0; N];
        array[..len].copy_from_slice(bytes);
        Short { bytes: array, len }
    }

    pub fn bytes(&self) -> &[u8]
        ensures value { result.now ≡ self.now }
    {
        &self.bytes[..self.len]
    }
}

impl<const N: usize> PartialEq for Short<N> {
    ghost eq = { pointwise nat_eq };

    ghost laws = { partial_equiv_from_equiv nat_list_eq_equiv };

    fn eq(&self, other: &Short<N>) -> bool {
        self.bytes() == other.bytes()
    }
}

impl<const N: usize> Eq for Short<N> {
    ghost laws = { nat_list_eq_equiv };
}

impl<const N: usize> Hash for Short<N> {
    ghost hash_input = { fed.slice fed.u8 };

    ghost respects_eq = { Prim.search (hashing, rules) };

    fn hash<H: Hasher>(&self, state: &mut H) {
        self.bytes().hash(state);
    }
}
