//! The values of numbers.
ghost use Rattle.std.specs.Prelude.{◌≡◌, ◌+◌, ◌≤◌, Some, None, IfOk, IfSome, codes, length, option_map, unsigned_abs, unwrap_or};
ghost use Rattle.ix_base.specs.Decimals.{IsUnsigned};
ghost use Rattle.ix_base.specs.ElementContent.{is_of};
ghost use Rattle.ix_base.specs.Namespaces.{ix_namespace};
ghost use Rattle.ix_base.specs.Trees.{named, nodes_of, tree_of};
ghost use Rattle.ix_base.specs.FactViews as viewed;
ghost use Rattle.ix_base.specs.declared.limits.TheConstants.{LARGEST_SCALE};
ghost use Rattle.scale_sign.specs.Scaled.{IsNumber};
ghost use Rattle.facts.specs.NumberValue as numerals;
ghost use Rattle.facts.specs.Verdicts.{said};

use crate::fault::ItemFault;
use crate::format::{Format, transformed};
use ix_base::{Element, Name, NoMemory, Node, Rule, Text, attr_of, is_ix, text_at, token, zeros};
use scale_sign::{is_unsigned, numbers_are_text, scaled};
use scopes::name_at;
use std::alloc::Global;
use value_forms::scale_of;

/// The texts among some nodes, joined.
pub(crate) fn own_text(alloc: Global, nodes: &[Node<'_>]) -> Result<Text, NoMemory>
    ensures { IfOk result (λ t. t ≡ numerals.own_text (nodes_of nodes.now)) }
{
    let mut text = Text::of(alloc, "")?;
    for node in nodes {
        if let Node::Chars(chars) = node {
            text.push(chars)?;
        }
    }
    Ok(text)
}

fn is_number(name: &Name) -> bool
    ensures { result ≡ is_of (named name.now) ix_namespace (codes "nonFraction") }
{
    is_ix(name) && name.local == "nonFraction"
}

/// The nonFraction whose own text is that of a nonFraction: itself, or the innermost in it.
pub fn innermost<'a>(e: &'a Element<'a>) -> &'a Element<'a>
    ensures tree { tree_of result.now ≡ unwrap_or (numerals.nested_in (tree_of e.entry.now).children) (tree_of e.entry.now) }
    ensures text { numerals.own_text (tree_of result.now).children ≡ numerals.number_text (tree_of e.entry.now).children }
{
    for node in e.children {
        let Node::Elem(below) = node else {
            continue;
        };
        if is_number(&below.name) {
            return innermost(below);
        }
    }
    e
}

/// The decimal that a text says without a format.
fn plain_digits(alloc: Global, text: &str) -> Result<Text, ItemFault>
    ensures { IfSome (said result) (numerals.IsDigits None text.now) }
{
    let digits = token(text);
    if !is_unsigned(digits) {
        return Err(ItemFault::Breach(Rule::V3));
    }
    Ok(Text::of(alloc, digits)?)
}

/// The decimal that a text says in the format of this name.
fn format_digits(alloc: Global, name: Name<'_>, text: &str) -> Result<Text, ItemFault>
    ensures { IfSome (said result) (numerals.IsDigits (Some (named name.entry)) text.now) }
{
    let Some(format) = Format::named(name) else {
        return Err(ItemFault::Breach(Rule::V1));
    };
    let digits = transformed(alloc, format, text)?;
    if !format.gives_number() {
        return Err(ItemFault::Breach(Rule::V4));
    }
    Ok(digits)
}

/// The decimal that the text of a number says before it is moved and signed.
fn digits_of(alloc: Global, format: Option<Name<'_>>, text: &str) -> Result<Text, ItemFault>
    ensures { IfSome (said result) (numerals.IsDigits (option_map named format.entry) text.now) }
{
    match format {
        Some(name) => format_digits(alloc, name, text),
        None => plain_digits(alloc, text),
    }
}

/// An unsigned decimal, moved by a scale and signed, written into this buffer.
fn moved_in(
    alloc: Global,
    digits: &str,
    scale: i32,
    negative: bool,
    out: &mut [u8],
) -> Result<Text, NoMemory>
    requires unsigned { IsUnsigned digits.now }
    requires scale { unsigned_abs scale ≤ LARGEST_SCALE }
    requires room { length digits.now + unsigned_abs scale + 3 ≤ length out.old }
    ensures { IfOk result (λ v. IsNumber digits.now scale negative v) }
{
    numbers_are_text();
    let count = scaled(digits, scale, negative, out);
    text_at(alloc, out, count)
}

/// An unsigned decimal, moved by a scale and signed.
fn moved(alloc: Global, digits: &str, scale: i32, negative: bool) -> Result<Text, NoMemory>
    requires unsigned { IsUnsigned digits.now }
    requires scale { unsigned_abs scale ≤ LARGEST_SCALE }
    ensures { IfOk result (λ v. IsNumber digits.now scale negative v) }
{
    let mut out = zeros(alloc, digits.len() + scale.unsigned_abs() as usize + 3)?;
    moved_in(alloc, digits, scale, negative, out.as_mut_slice())
}

/// The value of a number of this format, scale and sign, that has this text.
pub(crate) fn number_value(
    alloc: Global,
    format: Option<Name<'_>>,
    scale: i32,
    negative: bool,
    text: &str,
) -> Result<Text, ItemFault>
    requires { unsigned_abs scale ≤ LARGEST_SCALE }
    ensures { IfSome (said result) (numerals.IsNumberValue (numerals.number_at (option_map named format.entry) scale negative text.now)) }
{
    let digits = digits_of(alloc, format, text)?;
    Ok(moved(alloc, digits.as_str(), scale, negative)?)
}

/// The value of a number that has this text, by what its element says of it.
fn value_by(alloc: Global, e: &Element<'_>, text: &str) -> Result<Text, ItemFault>
    ensures { IfSome (said result) (numerals.IsNumberValue (numerals.number_by (viewed.view (tree_of e.now)) text.now)) }
{
    let is_negative = attr_of(e, "", "sign").is_some();
    number_value(alloc, name_at(e, "format"), scale_of(e), is_negative, text)
}

/// The value of a nonFraction.
pub(crate) fn nested_value(alloc: Global, e: &Element<'_>) -> Result<Text, ItemFault>
    ensures { IfSome (said result) (numerals.IsNumberValue
        (numerals.number_by (viewed.view (tree_of e.now)) (numerals.number_text (tree_of e.now).children))) }
{
    let text = own_text(alloc, innermost(e).children)?;
    value_by(alloc, e, text.as_str())
}

/// The value of a number whose text is its own.
pub(crate) fn own_value(alloc: Global, e: &Element<'_>) -> Result<Text, ItemFault>
    ensures { IfSome (said result) (numerals.IsNumberValue
        (numerals.number_by (viewed.view (tree_of e.now)) (numerals.own_text (tree_of e.now).children))) }
{
    let text = own_text(alloc, e.children)?;
    value_by(alloc, e, text.as_str())
}
