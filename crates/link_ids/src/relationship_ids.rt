//! The ids that a relationship names: of the facts from which it goes, and of the elements to which it goes.
ghost use Rattle.std.specs.Prelude.{◌≡◌, [], IfOk, map};
ghost use Rattle.std.specs.Option.{option_map_or};
ghost use Rattle.ix_base.specs.Forms.{words_of};
ghost use Rattle.ix_base.specs.LinkRules as rules_of;
ghost use Rattle.ix_base.specs.LocatedElements.{located};
ghost use Rattle.ix_base.specs.Trees.{tree_of};
ghost use Rattle.link_ids.specs.LinkAttributes as link_attributes;

use crate::attributes::{LinkAttribute, list_at};
use crate::words::words_in;
use ix_base::{Element, NoMemory, Spot};
use std::alloc::Global;

/// The words of an attribute that names a list of ids.
fn words_at<'a>(
    alloc: Global,
    attribute: LinkAttribute,
    e: &Element<'a>,
) -> Result<Vec<&'a str>, NoMemory>
    ensures { IfOk result (λ v. map (λ s. s.now) v.items ≡ option_map_or words_of (link_attributes.list_in attribute (tree_of e.now)) []) }
{
    match list_at(attribute, e) {
        Some(text) => words_in(alloc, text),
        None => Ok(Vec::new(alloc)),
    }
}

/// The ids of the facts from which a relationship goes, as they are written.
pub fn from_ids<'a>(alloc: Global, spot: &Spot<'a>) -> Result<Vec<&'a str>, NoMemory>
    ensures { IfOk result (λ v. map (λ s. s.now) v.items ≡ rules_of.from_ids (located spot.now)) }
{
    words_at(alloc, LinkAttribute::FromRefs, spot.element)
}

/// The ids of the facts and footnotes to which a relationship goes, as they are written.
pub fn to_ids<'a>(alloc: Global, spot: &Spot<'a>) -> Result<Vec<&'a str>, NoMemory>
    ensures { IfOk result (λ v. map (λ s. s.now) v.items ≡ rules_of.to_ids (located spot.now)) }
{
    words_at(alloc, LinkAttribute::ToRefs, spot.element)
}
