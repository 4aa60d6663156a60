//! What callers may conclude, for all bytes at once.

ghost use Rattle.std.specs.Prelude.{◌≡◌, List, ℕ, length};
ghost use Rattle.page_text.specs.Characters.{begun, chars};
ghost use Rattle.page_text.specs.Order.{AreInOrder};
ghost use Rattle.page_text.specs.Model.{begin, Stands};
ghost use Rattle.page_text.specs.Cuts.{joined, after_all, due_all};

/// It doesn't matter how a page is cut: pieces that are pushed one after another reach what all their bytes reach.
pub fn any_pieces()
    ensures stands { (pieces : List (List ℕ)) → Stands (after_all begin pieces) (joined pieces) }
    ensures marks { (pieces : List (List ℕ)) → due_all begin pieces ≡ begun (joined pieces) }
    ensures same { (ps qs : List (List ℕ)) → joined ps ≡ joined qs → after_all begin ps ≡ after_all begin qs }
    ensures same_marks { (ps qs : List (List ℕ)) → joined ps ≡ joined qs → due_all begin ps ≡ due_all begin qs }
{}

/// No character waits for the end of its page.
pub fn none_waits()
    ensures { (b : List ℕ) → chars b ≡ begun b }
{}

/// The characters of a page, and those that its front makes certain, are allowed ones; each stands behind the one before it,
/// and all within the bytes.
pub fn in_order()
    ensures page { (b : List ℕ) → AreInOrder 0 (length b) (chars b) }
    ensures front { (b : List ℕ) → AreInOrder 0 (length b) (begun b) }
{}
