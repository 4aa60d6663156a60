//! What pages that were read say, or the rules that they break.
ghost use Rattle.std.specs.Prelude.{◌≡◌, ◌∷◌, [], ◌<◌, ◌≤◌, ℕ, List, None, length, IfOk, ◌≢◌};
ghost use Rattle.ix_base.specs.declared.limits.TheConstants.{MOST_PAGES};
ghost use Rattle.ix_base.specs.Trees.{Tree};
ghost use Rattle.targets.specs.Breaches.{size_rule, PagesComeTo, on_page, text_faults};
ghost use Rattle.targets.specs.Forest.{AreTrees, page_set};
ghost use Rattle.target_contents.specs.SetOutcomes.{ComesTo, CanBeWritten, IsReport};
ghost use Rattle.page_verdicts.specs.PageReads.{HasRead, IsRead, IsSound};

use crate::read_pages::Forest;
use bumpalo::Bump;
use ix_base::limits::{MOST_BYTES, MOST_TAGS};
use ix_base::{Breaches, NoMemory, Place, Rule, Text};
use page_session::reading::Sums;
use page_tree::laws::sound_tree;
use std::alloc::Global;
use targets::{Outcome, made};

/// The size rule that pages with these sums break.
pub fn size_rule_of(sums: Sums) -> Option<Rule>
    ensures { result ≡ size_rule sums.bytes sums.tags }
{
    if sums.bytes > MOST_BYTES {
        Some(Rule::S1)
    } else if sums.tags > MOST_TAGS {
        Some(Rule::S2)
    } else {
        None
    }
}

/// The report of a size rule.
fn too_large(alloc: Global, names: &[Text], rule: Rule) -> Result<Outcome, NoMemory>
    requires some { 0 < length names.now }
    ensures report { IfOk result (IsReport names.now (on_page 0 0 rule ∷ [])) }
    ensures written { IfOk result CanBeWritten }
{
    let mut found = Breaches::new(alloc);
    found.add(Place { page: 0, offset: 0 }, rule)?;
    Outcome::broken(found, names)
}

/// What pages say that break no size rule.
fn judge_kept<'a>(
    alloc: Global,
    arena: &'a Bump,
    forest: Forest<'a>,
    base: &str,
    names: &[Text],
) -> Result<Outcome, NoMemory>
    requires some { 0 < length names.now }
    requires most { length names.now ≤ MOST_PAGES }
    requires read { (bs : List (List ℕ)) × HasRead bs forest × (length bs ≡ length names.now) }
    ensures broken { (bs : List (List ℕ)) → HasRead bs forest.entry → text_faults 0 bs ≢ []
        → IfOk result (IsReport names.now (text_faults 0 bs)) }
    ensures made { (bs : List (List ℕ)) → HasRead bs forest.entry → text_faults 0 bs ≡ []
        → IfOk result (λ o. (trees : List Tree) × AreTrees bs trees × ComesTo (page_set base.now names.now trees) o) }
    ensures written { IfOk result CanBeWritten }
{
    if forest.found.is_empty() {
        sound_tree();
        return made(alloc, arena, base, names, forest.roots.as_slice());
    }
    Outcome::broken(forest.found, names)
}

/// What pages say that were read.
pub fn judge<'a>(
    alloc: Global,
    arena: &'a Bump,
    base: &str,
    names: &[Text],
    forest: Forest<'a>,
) -> Result<Outcome, NoMemory>
    requires some { 0 < length names.now }
    requires most { length names.now ≤ MOST_PAGES }
    requires sound { IsSound names.now forest }
    ensures says { IfOk result (λ o. (bs : List (List ℕ)) → IsRead bs forest.entry → PagesComeTo base.now names.now bs o) }
    ensures written { IfOk result CanBeWritten }
{
    match size_rule_of(forest.sums) {
        Some(rule) => too_large(alloc, names, rule),
        None => judge_kept(alloc, arena, forest, base, names),
    }
}
