//! Laws of what is asked of a set of pages: neither the numbers of the pages nor their order shows in it.
ghost use Rattle.std.specs.Prelude.{◌≡◌, ℕ, List, map, option_map};
ghost use Rattle.std.specs.List.Sorted.{IsPermutation};
ghost use Rattle.ix_base.specs.declared.rule.Rule.{Rule};
ghost use Rattle.ix_base.specs.Asks.{asks};
ghost use Rattle.ix_base.specs.Chain.{chain};
ghost use Rattle.ix_base.specs.LinkRules.{breaks_link};
ghost use Rattle.ix_base.specs.LocatedElements.{Located};
ghost use Rattle.ix_base.specs.Membership.{owner, members};
ghost use Rattle.id_table.specs.Renumbering.{moved, KeepsApart};

/// Where the pages have other numbers, each element breaks the same rules on links, and its chain, its owner and its
/// members are those that it had.
pub fn renumbered_pages()
    ensures rules { (r : ℕ → ℕ) → KeepsApart r → (es : List Located) (e : Located) (k : Rule)
        → breaks_link (asks (map (moved r) es)) (moved r e) k ≡ breaks_link (asks es) e k }
    ensures chain { (r : ℕ → ℕ) → KeepsApart r → (es : List Located) (e : Located)
        → chain (asks (map (moved r) es)) (moved r e) ≡ map (moved r) (chain (asks es) e) }
    ensures owner { (r : ℕ → ℕ) → KeepsApart r → (es : List Located) (e : Located)
        → owner (asks (map (moved r) es)) (moved r e) ≡ option_map (moved r) (owner (asks es) e) }
    ensures members { (r : ℕ → ℕ) → KeepsApart r → (es : List Located) (t : Located)
        → members (map (moved r) es) (moved r t) ≡ map (moved r) (members es t) }
{}

/// Elements in another order are asked the same.
pub fn rearranged_elements()
    ensures { (xs ys : List Located) → IsPermutation xs ys → asks xs ≡ asks ys }
{}
