//! Laws of footnote links, for the crates that ask for them.
ghost use Rattle.std.specs.Prelude.{◌≡◌, ℕ, List, All, ◌<◌, map};
ghost use Rattle.std.specs.List.Sorted.{IsPermutation};
ghost use Rattle.ix_base.specs.LocatedElements.{Located};
ghost use Rattle.id_table.specs.Renumbering.{moved, KeepsApart};
ghost use Rattle.continuations.specs.Model.{AreChainsOf};
ghost use Rattle.footnotes.specs.FootnoteLinks.{notes};
ghost use Rattle.footnotes.specs.Model.{AreOnPages};

/// Where chains were made from some elements, all of the first so many pages, the elements of the chains are of these pages.
pub fn chains_on_pages()
    ensures { (chains : List ((ℕ × ℕ) × List Located)) (es : List Located) (pages : ℕ) → AreChainsOf chains es
        → All (λ e. e.page < pages) es → AreOnPages chains pages }
{}

/// Where the pages have other numbers, and each element the base that it had, the footnote links of a target are the same.
pub fn renumbered_notes()
    ensures { (r : ℕ → ℕ) → KeepsApart r → (bases others : Located → List ℕ) → ((e : Located) → others (moved r e) ≡ bases e)
        → (es : List Located) (target : List ℕ) → notes others (map (moved r) es) target ≡ notes bases es target }
{}

/// The footnote links of elements in another order are the same.
pub fn rearranged_notes()
    ensures { (bases : Located → List ℕ) (xs ys : List Located) (target : List ℕ) → IsPermutation xs ys
        → notes bases xs target ≡ notes bases ys target }
{}
