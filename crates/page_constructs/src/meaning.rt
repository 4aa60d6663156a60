//! What constructs mean.
ghost use Rattle.std.specs.Prelude.{◌≡◌, ◌≢◌, [], length, option_map, codes, if◌then◌else◌, IfOk, None, Some};
ghost use Rattle.page_constructs.specs.Ends.{HasEnds, IsAround, front_around, back_around};
ghost use Rattle.page_constructs.specs.Forms.{has_bracket as has_bracket_of, holds as holds_of};
ghost use Rattle.page_constructs.specs.Meanings.{commented as commented_of, doctyped as doctyped_of, inside as inside_of, instructed as instructed_of, meant_by};
ghost use Rattle.page_constructs.specs.Tokens.{words};
ghost use Rattle.page_constructs.specs.Model.{token_of};

mod declaration;
mod own;
mod span;
mod tag;
mod value;

use crate::kind::Kind;
use crate::room::TagRoom;
use crate::token::Token;
use bumpalo::Bump;
use declaration::declared;
use ix_base::{NoMemory, is_white};
use scopes::is_ncname;
pub(crate) use span::behind_front;
use span::{Stop, split};
use std::alloc::Global;
use tag::{end_tag, start_tag};
use value::referred_by;

/// What stands between a front and a back.
fn inside<'t>(front: &str, back: &str, text: &'t str) -> &'t str
    requires { IsAround front.now back.now text.now }
    ensures { result.now ≡ inside_of (length front.now) (length back.now) text.now }
{
    if text.len() < front.len() || text.len() - front.len() < back.len() {
        return "";
    }
    &text[front.len()..text.len() - back.len()]
}

/// Whether a text stands somewhere in another.
fn holds(text: &str, part: &str) -> bool
    requires { part.now ≢ [] }
    ensures { result ≡ holds_of part.now text.now }
{
    text.contains(part)
}

/// What stands in an instruction.
fn instructed<'a, 't>(inner: &'t str) -> Option<Token<'a, 't>>
    ensures { option_map token_of result ≡ instructed_of inner.now }
{
    let (target, _) = split(inner, Stop::White);
    if is_ncname(target) && !target.eq_ignore_ascii_case("xml") {
        Some(Token::Silent)
    } else {
        None
    }
}

/// What stands in a comment.
fn commented<'a, 't>(inner: &'t str) -> Option<Token<'a, 't>>
    ensures { option_map token_of result ≡ commented_of inner.now }
{
    if holds(inner, "--") {
        return None;
    }
    if inner.ends_with('-') {
        None
    } else {
        Some(Token::Silent)
    }
}

/// A `[` outside quotes.
fn has_bracket(text: &[u8]) -> bool
    ensures { result ≡ has_bracket_of None text.now }
{
    let mut quote = None;
    for byte in text {
        match quote {
            Some(open) => {
                if *byte == open {
                    quote = None;
                }
            }
            None => {
                if *byte == b'[' {
                    return true;
                }
                if *byte == b'"' || *byte == b'\'' {
                    quote = Some(*byte);
                }
            }
        }
    }
    false
}

/// What stands in a document type declaration behind `<!DOCTYPE`.
fn doctyped<'a, 't>(inner: &'t str) -> Option<Token<'a, 't>>
    ensures { option_map token_of result ≡ doctyped_of inner.now }
{
    let (first, rest) = inner.as_bytes().split_first()?;
    if is_white(*first) {
        Some(Token::Doctype {
            has_subset: has_bracket(rest),
        })
    } else {
        None
    }
}

/// Whether `]]>` stands somewhere in a text. In most texts no `>` does.
fn holds_end(text: &str) -> bool
    ensures { result ≡ holds_of (codes "]]>") text.now }
{
    text.as_bytes().contains(&b'>') && holds(text, "]]>")
}

/// What a text means.
fn worded<'a, 't>(text: &'t str) -> Option<Token<'a, 't>>
    ensures { option_map token_of result ≡ (if holds_of (codes "]]>") text.now then None else Some (words text.now)) }
{
    if holds_end(text) {
        None
    } else {
        Some(Token::Text(text))
    }
}

/// What stands around what a construct says.
fn ends_of(kind: Kind) -> (&'static str, &'static str)
    ensures front { result.0.now ≡ front_around kind }
    ensures back { result.1.now ≡ back_around kind }
{
    match kind {
        Kind::Declaration => ("<?xml", "?>"),
        Kind::Instruction => ("<?", "?>"),
        Kind::Comment => ("<!--", "-->"),
        Kind::Cdata => ("<![CDATA[", "]]>"),
        Kind::Doctype => ("<!DOCTYPE", ">"),
        Kind::EndTag => ("</", ">"),
        Kind::StartTag => ("<", ">"),
        Kind::Unknown | Kind::Reference | Kind::Text => ("", ""),
    }
}

/// What a construct of a kind means that starts at an offset; none where it isn't of its form. A tag is read into a room.
#[tactic(auto, unfolding(crate::specs::Meanings::meant_by))]
pub fn meant<'a, 't>(
    alloc: Global,
    arena: &'a Bump,
    room: &'t mut TagRoom<'a>,
    kind: Kind,
    offset: u64,
    text: &'t str,
) -> Result<Option<Token<'a, 't>>, NoMemory>
    requires { HasEnds kind text.now }
    ensures { IfOk result (λ r. option_map token_of r ≡ meant_by kind offset text.now) }
{
    let (front, back) = ends_of(kind);
    let inner = inside(front, back, text);
    match kind {
        Kind::Declaration => Ok(declared(inner)),
        Kind::Instruction => Ok(instructed(inner)),
        Kind::Comment => Ok(commented(inner)),
        Kind::Cdata => Ok(Some(Token::Cdata(inner))),
        Kind::Doctype => Ok(doctyped(inner)),
        Kind::Unknown => Ok(None),
        Kind::EndTag => Ok(end_tag(&mut room.names, inner)),
        Kind::StartTag => start_tag(alloc, arena, room, offset, inner),
        Kind::Reference => Ok(Some(Token::Reference(referred_by(text)))),
        Kind::Text => Ok(worded(text)),
    }
}
