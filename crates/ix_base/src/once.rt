//! Texts in order, each once.
ghost use Rattle.std.specs.Prelude.{◌≡◌, ◌++◌, ◌∷◌, ℕ, List, map, OnOk};
ghost use Rattle.ix_base.specs.Once.{in_order};
ghost use Rattle.ix_base.specs.SortedLists.{text_cmp};

use crate::NoMemory;

/// Puts texts in order by their bytes, each once. The cost of n texts is that of a sort: n log n comparisons.
pub fn each_once(texts: &mut Vec<&str>)
    ensures { map (λ s. s.now) texts.new.items ≡ in_order text_cmp (map (λ s. s.now) texts.old.items) }
{
    texts.sort_unstable();
    texts.dedup();
}

/// Adds a text behind others, unless it is the last of them: to what will be put in order, each once, that is all the same.
#[tactic(auto, using(crate::proofs::OnceAgain::in_order_again))]
pub fn push_unlike<'a>(texts: &mut Vec<&'a str>, text: &'a str) -> Result<(), NoMemory>
    ensures { OnOk result ((rest : List (List ℕ)) → in_order text_cmp (map (λ s. s.now) texts.new.items ++ rest)
        ≡ in_order text_cmp (map (λ s. s.now) texts.old.items ++ text.entry.now ∷ rest)) }
{
    if let Some(last) = texts.last() {
        if *last == text {
            return Ok(());
        }
    }
    texts.push(text)?;
    Ok(())
}
