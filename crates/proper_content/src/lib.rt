//! Whether a content is proper: one that its canonical text gives back.
//!
//! What a content holds is gathered once. Texts that are looked for among others, or that may stand once only, are sorted; all
//! other tests go once over what they test. Each list that is gathered holds references alone. The order of references, facts and
//! arcs is told by what is written of them.
#![tactic(auto)]

ghost use Rattle.std.specs.Prelude.{◌≡◌, IfOk};
ghost use Rattle.ix_base.specs.PlainContents.{said_of};
ghost use Rattle.proper_content.specs.ContentTests.{first_fit, last_fit, second_fit, third_fit};
ghost use Rattle.proper_texts.specs.Model.{IsHeld};
ghost use Rattle.instance_out.specs.Proper as proper;

mod among;
mod forms;
mod gathered;
mod ids;
mod lines;
mod links;
mod names;
mod order;
mod parts;
mod roles;
mod tuples;

use crate::forms::forms_fit;
use crate::ids::ids_fit;
use crate::lines::lists_fit;
use crate::links::{links_fit, orders_fit};
use crate::names::names_fit;
use crate::parts::parts_fit;
use crate::roles::roles_fit;
use crate::tuples::tuples_fit;
use ix_base::{Content, NoMemory};
use proper_texts::{
    Held, fractions_fit, held_in, numbers_fit, texts_fit, tokens_fit, unitless_fit,
};
use std::alloc::Global;

/// Whether ids, names and characters are those of a proper content.
fn has_proper_texts(alloc: Global, content: &Content, held: &Held) -> Result<bool, NoMemory>
    requires { IsHeld (said_of content.now) held.now }
    ensures { IfOk result (λ b. b ≡ first_fit (said_of content.now)) }
{
    if !ids_fit(alloc, content, held)? {
        return Ok(false);
    }
    Ok(names_fit(content, held) && texts_fit(content, held))
}

/// Whether lists are in order, and parts and roles are used.
fn has_proper_lists(alloc: Global, content: &Content, held: &Held) -> Result<bool, NoMemory>
    requires { IsHeld (said_of content.now) held.now }
    ensures { IfOk result (λ b. b ≡ second_fit (said_of content.now)) }
{
    if !lists_fit(alloc, content)? {
        return Ok(false);
    }
    if !parts_fit(alloc, content, held)? {
        return Ok(false);
    }
    let answer = roles_fit(alloc, content, held)?;
    Ok(answer)
}

/// Whether contexts, units and values are of their forms.
fn has_proper_forms(content: &Content, held: &Held) -> bool
    requires { IsHeld (said_of content.now) held.now }
    ensures { result ≡ third_fit (said_of content.now) }
{
    forms_fit(content)
        && numbers_fit(content, held)
        && unitless_fit(content, held)
        && fractions_fit(content, held)
}

/// Whether footnote links, orders and tokens are those of a proper content.
fn has_proper_links(alloc: Global, content: &Content, held: &Held) -> Result<bool, NoMemory>
    requires { IsHeld (said_of content.now) held.now }
    ensures { IfOk result (λ b. b ≡ last_fit (said_of content.now)) }
{
    if !links_fit(alloc, content, held)? {
        return Ok(false);
    }
    Ok(orders_fit(content, held) && tokens_fit(content, held))
}

/// Whether a content passes the fourteen tests of proper contents: its ids, names and texts, the order of its lists, its parts
/// and roles, the forms of its contexts, units and values, its tuples, footnote links, orders and tokens.
///
/// What stands in the bodies of its footnotes isn't looked at. Want of memory is the only error. The cost of n texts that are
/// sorted is n log n comparisons, and all else grows with the content. How deep tuples stand is told first, since the other tests
/// go as deep.
#[tactic(auto, using(crate::proofs::ToldLaws::proper_told, crate::proofs::ToldLaws::tuples_missed))]
pub fn is_proper(alloc: Global, content: &Content) -> Result<bool, NoMemory>
    ensures { IfOk result (λ b. b ≡ proper.is_proper (said_of content.now)) }
{
    if !tuples_fit(content) {
        return Ok(false);
    }
    let held = held_in(alloc, content)?;
    if !has_proper_texts(alloc, content, &held)? {
        return Ok(false);
    }
    if !has_proper_lists(alloc, content, &held)? {
        return Ok(false);
    }
    if !has_proper_forms(content, &held) {
        return Ok(false);
    }
    let answer = has_proper_links(alloc, content, &held)?;
    Ok(answer)
}
