//! Keys are alike where their texts are, and their numbers alone are hashed.
ghost use Rattle.std.specs.Prelude.{◌≡◌, bytes_eq};
ghost use Rattle.std.proofs.Common.{◌∙◌, ap, sym};
ghost use Rattle.std.specs.Cmp.{on_equiv, on_per, partial_equiv_from_equiv};
ghost use Rattle.std.specs.Cmp.Lexicographic.{bytes_decides, nat_list_eq_equiv};
ghost use Rattle.std.specs.Hash as fed;
ghost use Rattle.text_map.specs.Hashes.{hash_of as spec_hash_of};
ghost use Rattle.text_map.specs.Keys.{alike, bytes, sought};

use crate::key::{Kept, Key, hash_of};
use indexmap::Equivalent;
use std::hash::{Hash, Hasher};

/// Whether two texts are equal. It stays a call, so that the search for a key, which seldom comes to it, is short.
#[inline(never)]
fn equal_texts(a: &str, b: &str) -> bool
    ensures { result ≡ bytes_eq a.now b.now }
{
    a == b
}

impl<'a> PartialEq for Kept<'a> {
    ghost eq = { λ j k. bytes_eq (bytes j) (bytes k) };

    ghost laws = { on_per bytes (partial_equiv_from_equiv nat_list_eq_equiv) };

    #[inline(always)]
    fn eq(&self, other: &Kept<'a>) -> bool {
        equal_texts(self.text, other.text)
    }
}

impl<'a> Eq for Kept<'a> {
    ghost laws = { on_equiv bytes nat_list_eq_equiv };
}

impl<'a> Hash for Kept<'a> {
    ghost hash_input = { λ k. fed.u64 (spec_hash_of (bytes k)) };

    ghost respects_eq = { λ j k h. ap (λ q. fed.u64 (spec_hash_of q)) ((bytes_decides (bytes j) (bytes k)).0 h) };

    #[inline(always)]
    fn hash<H: Hasher>(&self, state: &mut H) {
        state.write_u64(hash_of(self.text));
    }
}

impl<'q> PartialEq for Key<'q> {
    ghost eq = { λ j k. bytes_eq (sought j) (sought k) };

    ghost laws = { on_per sought (partial_equiv_from_equiv nat_list_eq_equiv) };

    #[inline(always)]
    fn eq(&self, other: &Key<'q>) -> bool {
        equal_texts(self.text, other.text)
    }
}

impl<'q> Eq for Key<'q> {
    ghost laws = { on_equiv sought nat_list_eq_equiv };
}

impl<'q> Hash for Key<'q> {
    ghost hash_input = { λ k. fed.u64 k.number };

    ghost respects_eq = { λ j k h. ap fed.u64 (alike j (sought k) h ∙ sym k.numbered) };

    #[inline(always)]
    fn hash<H: Hasher>(&self, state: &mut H) {
        state.write_u64(self.number);
    }
}

impl<'q, 'a> Equivalent<Kept<'a>> for Key<'q> {
    ghost equivalent = { λ j k. bytes_eq (sought j) (bytes k) };

    ghost respects_hash = { λ j k h. ap fed.u64 (alike j (bytes k) h) };

    ghost respects_eq = { λ j x y. nat_list_eq_equiv.congr (sought j) (bytes x) (bytes y) };

    #[inline(always)]
    fn equivalent(&self, key: &Kept<'a>) -> bool {
        equal_texts(self.text, key.text)
    }
}
