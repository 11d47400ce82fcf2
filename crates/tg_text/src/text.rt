ghost use Rattle.std.specs.Prelude.{◌≡◌, ◌≤◌, ◌<◌, length, Some, nat_eq, refl};
ghost use Rattle.std.specs.Ordering.{nat_cmp};
ghost use Rattle.std.specs.Cmp.{partial_equiv_from_equiv};
ghost use Rattle.std.specs.Cmp.Lexicographic.{pointwise, slice_cmp, nat_list_eq_equiv, nat_list_cmp_total, texts_po, texts_ties};
ghost use Rattle.std.specs.Cmp.Rules.{hashing};
ghost use Rattle.std.specs.Hash as fed;
ghost use Rattle.std.proofs.Common.{rules};

use std::cmp::Ordering;
use std::hash::{Hash, Hasher};
use std::marker::Model;

/// At most `SIZE` bytes that lie in the value itself, seen as their list.
#[derive(Clone, Copy, Debug)]
pub(crate) struct Text<const SIZE: usize> {
    bytes: [u8; SIZE],
    len: usize,
}

impl<const SIZE: usize> Model for Text<SIZE> {
    ghost use Rattle.std.specs.Prelude.{◌-◌, ℕ, List, ◌++◌, length, take, replicate};
    ghost use Rattle.tg_text.specs.Padded.{IsPadded, bytes_padded, length_padded};

    ghost Value = { List ℕ };

    ghost view = { λ it. take it.len it.bytes };

    ghost invariant = { λ it. IsPadded SIZE it.len it.bytes };

    ghost inverse = { λ text. record { bytes = text ++ replicate (SIZE - length text) 0; len = length text } };

    ghost inverse_ok = { λ a h i. record { bytes = bytes_padded h i; len = length_padded h i } };
}

impl<const SIZE: usize> Text<SIZE> {
    pub(crate) fn new(text: &[u8]) -> Text<SIZE>
        requires { length text.now ≤ SIZE }
        ensures { result ≡ text.now }
    {
        let mut bytes = [0; SIZE];
        bytes[..text.len()].copy_from_slice(text);
        Text {
            bytes,
            len: text.len(),
        }
    }

    pub(crate) fn as_slice(&self) -> &[u8]
        ensures { result.now ≡ self.now }
    {
        &self.bytes[..self.len]
    }
}

impl<const SIZE: usize> PartialEq for Text<SIZE> {
    ghost eq = { λ a b. pointwise nat_eq a b };

    ghost laws = { partial_equiv_from_equiv nat_list_eq_equiv };

    fn eq(&self, other: &Self) -> bool {
        self.as_slice() == other.as_slice()
    }
}

impl<const SIZE: usize> Eq for Text<SIZE> {
    ghost laws = { nat_list_eq_equiv };
}

impl<const SIZE: usize> PartialOrd for Text<SIZE> {
    ghost partial_cmp = { λ a b. Some (slice_cmp nat_cmp a b) };

    ghost laws = { texts_po };

    fn partial_cmp(&self, other: &Self) -> Option<Ordering> {
        Some(self.cmp(other))
    }
}

impl<const SIZE: usize> Ord for Text<SIZE> {
    ghost cmp = { λ a b. slice_cmp nat_cmp a b };

    ghost total = { nat_list_cmp_total };

    ghost matches_partial_cmp = { λ _ _. refl };

    ghost matches_eq = { λ a b. texts_ties a b };

    fn cmp(&self, other: &Self) -> Ordering {
        self.as_slice().cmp(other.as_slice())
    }
}

impl<const SIZE: usize> Hash for Text<SIZE> {
    ghost hash_input = { λ it. fed.slice fed.u8 it };

    ghost respects_eq = { Prim.search (hashing, rules) };

    fn hash<H: Hasher>(&self, state: &mut H) {
        self.as_slice().hash(state);
    }
}
