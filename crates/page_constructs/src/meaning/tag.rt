//! Tags.
ghost use Rattle.std.specs.Prelude.{◌≡◌, ◌≤◌, ◌<◌, ℕ, true, false, length, option_map, IfOk, IfSome, MatchOption};
ghost use Rattle.std.specs.Str.{IsUtf8};
ghost use Rattle.ix_base.specs.Scope.{is_qname as is_qname_of};
ghost use Rattle.page_constructs.specs.Meanings.{before, from, ends_name, ends_tag_name, attribute_at as attribute_at_of, attributes_in as attributes_in_of, start_tag as start_tag_of, end_tag as end_tag_of};
ghost use Rattle.page_constructs.specs.ReadAttributes.{attribute_and_more, attributes_and_end};
ghost use Rattle.page_constructs.specs.Model.{token_of};

use crate::meaning::own::own_equalled;
use crate::meaning::span::{Stop, behind_white, equalled, is_white_text, split};
use crate::meaning::value::value_of;
use crate::room::{Names, TagRoom};
use crate::token::{Attribute, Tag, Token};
use crate::written::{Written, is_qname, parted};
use bumpalo::Bump;
use ix_base::NoMemory;
use std::alloc::Global;

/// A name, kept in the arena, in its parts, where it is a qualified name: one that is remembered, or a new one.
fn kept_name<'a>(
    arena: &'a Bump,
    names: &mut Names<'a>,
    name: &str,
) -> Result<Option<Written<'a>>, NoMemory>
    ensures { IfOk result (λ r. MatchOption r (is_qname_of name.now ≡ false)
        (λ w. (is_qname_of name.now ≡ true) × (w.name.now ≡ name.now))) }
{
    if let Some(known) = names.find(name) {
        return Ok(Some(known));
    }
    let Some(written) = parted(arena.try_alloc_str(name)?) else {
        return Ok(None);
    };
    names.remember(written)?;
    Ok(Some(written))
}

/// The name of an attribute at the front, where it is a qualified name, kept in the arena, and what is behind it.
fn name_at<'a, 't>(
    arena: &'a Bump,
    names: &mut Names<'a>,
    text: &'t str,
) -> Result<Option<(Written<'a>, &'t str)>, NoMemory>
    ensures { IfOk result (λ r. MatchOption r (is_qname_of (before ends_name text.now) ≡ false)
        (λ p. (is_qname_of (before ends_name text.now) ≡ true) × (p.0.name.now ≡ before ends_name text.now)
        × (p.1.now ≡ from ends_name text.now))) }
{
    if let Some(expected) = names.expected(text) {
        return Ok(Some(expected));
    }
    let (front, rest) = split(text, Stop::Name);
    match kept_name(arena, names, front)? {
        Some(name) => Ok(Some((name, rest))),
        None => Ok(None),
    }
}

/// The name of a tag at the front, where it is a qualified name, kept in the arena, and what is behind it.
fn tag_name_at<'a, 't>(
    arena: &'a Bump,
    names: &mut Names<'a>,
    text: &'t str,
) -> Result<Option<(Written<'a>, &'t str)>, NoMemory>
    ensures { IfOk result (λ r. MatchOption r (is_qname_of (before ends_tag_name text.now) ≡ false)
        (λ p. (is_qname_of (before ends_tag_name text.now) ≡ true) × (p.0.name.now ≡ before ends_tag_name text.now)
        × (p.1.now ≡ from ends_tag_name text.now))) }
{
    if let Some(expected) = names.expected_tag(text) {
        return Ok(Some(expected));
    }
    let (front, rest) = split(text, Stop::TagName);
    match kept_name(arena, names, front)? {
        Some(name) => {
            names.note_tag();
            Ok(Some((name, rest)))
        }
        None => Ok(None),
    }
}

/// An attribute at the front, and what is behind it.
fn attribute_at<'a, 't>(
    alloc: Global,
    arena: &'a Bump,
    names: &mut Names<'a>,
    text: &'t str,
) -> Result<Option<(Attribute<'a>, &'t str)>, NoMemory>
    ensures value { IfOk result (λ r. option_map attribute_and_more r ≡ attribute_at_of text.now) }
    ensures shorter { IfOk result (λ r. IfSome r (λ p. length p.1.now ≤ length text.now)) }
    ensures text { IfOk result (λ r. IfSome r (λ p. IsUtf8 p.1.now)) }
{
    let Some((name, rest)) = name_at(arena, names, text)? else {
        return Ok(None);
    };
    if let Some((own, more)) = own_equalled(rest) {
        let value = Some(arena.try_alloc_str(own)?);
        return Ok(Some((Attribute { name, value }, more)));
    }
    match equalled(rest) {
        Some((raw, more)) if !raw.as_bytes().contains(&b'<') => {
            let value = value_of(alloc, arena, raw)?;
            Ok(Some((Attribute { name, value }, more)))
        }
        _ => Ok(None),
    }
}

/// Attributes, each behind white space, collected in a list: whether a `/` ends them.
fn attributes_in<'a>(
    alloc: Global,
    arena: &'a Bump,
    attrs: &mut Vec<Attribute<'a>>,
    names: &mut Names<'a>,
    text: &str,
) -> Result<Option<bool>, NoMemory>
    ensures { IfOk result (λ r. (n : ℕ) → length text.now < n
        → option_map (attributes_and_end attrs.new.items) r ≡ attributes_in_of n text.now) }
{
    attrs.clear();
    let mut rest = text;
    loop {
        let dark = behind_white(rest);
        if dark.is_empty() {
            return Ok(Some(false));
        }
        if dark == "/" {
            return Ok(Some(true));
        }
        if dark.len() == rest.len() {
            return Ok(None);
        }
        match attribute_at(alloc, arena, names, dark)? {
            Some((attribute, more)) => {
                attrs.push(attribute)?;
                rest = more;
            }
            None => return Ok(None),
        }
    }
}

/// What stands in a start tag or in an empty-element tag.
pub(crate) fn start_tag<'a, 't>(
    alloc: Global,
    arena: &'a Bump,
    room: &'t mut TagRoom<'a>,
    offset: u64,
    inner: &'t str,
) -> Result<Option<Token<'a, 't>>, NoMemory>
    ensures { IfOk result (λ r. option_map token_of r ≡ start_tag_of offset inner.now) }
{
    let Some((name, rest)) = tag_name_at(arena, &mut room.names, inner)? else {
        return Ok(None);
    };
    match attributes_in(alloc, arena, &mut room.attrs, &mut room.names, rest)? {
        Some(is_empty) => {
            let tag = Tag {
                offset,
                name,
                attrs: room.attrs.as_slice(),
            };
            if is_empty {
                Ok(Some(Token::EmptyTag(tag)))
            } else {
                Ok(Some(Token::StartTag(tag)))
            }
        }
        None => Ok(None),
    }
}

/// Whether a name is a qualified name. It is looked through only where it isn't remembered.
fn is_tag_name(names: &mut Names<'_>, name: &str) -> bool
    ensures { result ≡ is_qname_of name.now }
{
    match names.find(name) {
        Some(_) => {
            names.note_tag();
            true
        }
        None => is_qname(name),
    }
}

/// What stands in an end tag: most often the name of the last tag.
#[tactic(auto, using(crate::proofs::TagReading::closed_name))]
pub(crate) fn end_tag<'a, 't>(names: &mut Names<'_>, inner: &'t str) -> Option<Token<'a, 't>>
    ensures { option_map token_of result ≡ end_tag_of inner.now }
{
    if names.is_last_tag(inner) {
        return Some(Token::EndTag(inner));
    }
    let (name, rest) = split(inner, Stop::White);
    let is_name = is_tag_name(names, name);
    if is_name && is_white_text(rest) {
        Some(Token::EndTag(name))
    } else {
        None
    }
}
