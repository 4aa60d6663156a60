//! A page that is shown without its inline markup.
ghost use Rattle.std.specs.Prelude.{◌≡◌, ◌<◌, ℕ, List, All, None, IfOk, length};
ghost use Rattle.ix_base.specs.declared.limits.TheConstants.{DEEPEST_ELEMENT};
ghost use Rattle.ix_base.specs.Sound.{IsSoundRoot};
ghost use Rattle.ix_base.specs.Trees.{tree_of};
ghost use Rattle.page_plain.specs.Bare.{is_inline};
ghost use Rattle.targets.specs.Breaches.{size_rule};
ghost use Rattle.page_verdicts.specs.PageReads.{HasRead, IsRead, IsSound};
ghost use Rattle.page_verdicts.specs.Verdicts.{AreWritable, IsShown, IsShownBy, Reports};

use crate::judge::size_rule_of;
use crate::read_pages::Forest;
use crate::verdict::Verdict;
use ix_base::namespaces::IX;
use ix_base::{Breaches, Element, NoMemory, Place, Rule, Text};
use page_plain::plain_page;
use page_tree::laws::sound_tree;
use std::alloc::Global;

/// The report of what was found on the page.
fn reported(found: Breaches, names: &[Text]) -> Result<Verdict, NoMemory>
    requires { All (λ f. f.place.page < length names.now) found }
    ensures reports { IfOk result (Reports names.now found) }
    ensures written { IfOk result AreWritable }
{
    Ok(Verdict::Reported(found.report(names)?))
}

/// Whether a root is an inline element.
#[tactic(auto, unfolding(ix_base::specs::Namespaces::ix_namespace))]
fn is_inline_root(root: &Element<'_>) -> bool
    ensures { result ≡ is_inline (tree_of root.now).head.name }
{
    root.name.ns == IX
}

/// What a page comes to that has this root.
fn root_shown(alloc: Global, names: &[Text], root: &Element<'_>) -> Result<Verdict, NoMemory>
    requires one { length names.now ≡ 1 }
    requires sound { (page : ℕ) × IsSoundRoot root.now page DEEPEST_ELEMENT }
    ensures shown { IfOk result (IsShownBy (is_inline (tree_of root.now).head.name) names.now (tree_of root.now)) }
    ensures written { IfOk result AreWritable }
{
    if is_inline_root(root) {
        let mut found = Breaches::new(alloc);
        let place = Place {
            page: 0,
            offset: root.place.offset,
        };
        found.add(place, Rule::P1)?;
        return reported(found, names);
    }
    Ok(Verdict::Printed(plain_page(alloc, root)?))
}

/// What a page comes to that breaks no rule of size.
fn kept_shown<'a>(alloc: Global, names: &[Text], forest: Forest<'a>) -> Result<Verdict, NoMemory>
    requires one { length names.now ≡ 1 }
    requires read { (bs : List (List ℕ)) × HasRead bs forest × (length bs ≡ 1) }
    requires kept { size_rule forest.sums.bytes forest.sums.tags ≡ None }
    ensures shown { IfOk result (λ v. (bs : List (List ℕ)) → IsRead bs forest.entry → IsShown names.now bs v) }
    ensures written { IfOk result AreWritable }
{
    if !forest.found.is_empty() {
        return reported(forest.found, names);
    }
    sound_tree();
    root_shown(alloc, names, forest.roots[0])
}

/// What the page of this one name comes to without its inline markup.
pub fn shown<'a>(alloc: Global, names: &[Text], forest: Forest<'a>) -> Result<Verdict, NoMemory>
    requires one { length names.now ≡ 1 }
    requires sound { IsSound names.now forest }
    ensures shown { IfOk result (λ v. (bs : List (List ℕ)) → IsRead bs forest.entry → IsShown names.now bs v) }
    ensures written { IfOk result AreWritable }
{
    let Some(rule) = size_rule_of(forest.sums) else {
        return kept_shown(alloc, names, forest);
    };
    let mut found = Breaches::new(alloc);
    found.add(Place { page: 0, offset: 0 }, rule)?;
    reported(found, names)
}
