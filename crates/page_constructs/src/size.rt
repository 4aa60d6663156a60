//! Where constructs end.
ghost use Rattle.std.specs.Prelude.{◌≡◌, ◌∷◌, [], ◌==◌, ◌||◌, ◌&&◌, suc, is_none, false, ◌+◌, ◌≤◌, ◌<◌, ◌++◌, ℕ, List, length, drop, Some, None, option_map, IfSome};
ghost use Rattle.page_constructs.specs.Constructs.{after as after_of, after_tag as after_tag_of, kind_of as kind_of_spec, size as size_of, size_by as size_by_spec, is_run as is_run_of, whole_size as whole_size_of};
ghost use Rattle.page_constructs.specs.Searches.{seek as seek_of, skipped, further, found, GoesOn, IsSought};

mod parts;
mod run;

use crate::kind::{Kind, behind_first, kind_of, starts};
use parts::behind_parts;
use run::{reference_size, text_size};

/// How far the end of a construct was looked for: behind so many of its bytes, where this quote is open. At 0 it wasn't
/// looked for.
#[derive(Clone, Copy, Debug)]
pub struct Sought {
    pub at: usize,
    pub quote: Option<u8>,
}

/// Where a construct ends, or how far its end was looked for in vain.
#[derive(Clone, Copy, Debug)]
pub enum End {
    At(usize),
    Beyond(Sought),
}

/// No end was looked for.
pub fn unsought() -> Sought
    ensures { result.at ≡ 0 }
{
    Sought { at: 0, quote: None }
}

/// Where the first of these ends, from a place on.
fn after(text: &[u8], from: usize, ends: &[u8]) -> End
    ensures value { found result ≡ further from (after_of ends.now (drop from text.now)) }
    ensures within { IfSome (found result) (λ n. n ≤ length text.now) }
    ensures goes { (s : _) → result ≡ End.Beyond s → GoesOn (after_of ends.now) from (after_of ends.now) s.at text.now }
{
    let mut at = from;
    'places: while at < text.len() && ends.len() <= text.len() - at {
        if starts(behind_first(text, at), ends) {
            return End::At(at + ends.len());
        }
        at += 1;
    }
    End::Beyond(Sought { at, quote: None })
}

/// Where the first such byte ends, from a place on.
fn after_byte(text: &[u8], from: usize, end: u8) -> End
    ensures value { found result ≡ further from (after_of (end ∷ []) (drop from text.now)) }
    ensures within { IfSome (found result) (λ n. n ≤ length text.now) }
    ensures goes { (s : _) → result ≡ End.Beyond s → GoesOn (after_of (end ∷ [])) from (after_of (end ∷ [])) s.at text.now }
{
    let mut at = from;
    'bytes: while at < text.len() {
        if text[at] == end {
            return End::At(at + 1);
        }
        at += 1;
    }
    End::Beyond(Sought { at, quote: None })
}

/// Whether a byte ends a tag, behind an open quote where there is one.
fn ends_tag(quote: Option<u8>, byte: u8) -> bool
    ensures { result ≡ (is_none quote && (byte == 62)) }
{
    quote.is_none() && byte == b'>'
}

/// The quote that is open behind a byte which doesn't end a tag.
fn quote_behind(quote: Option<u8>, byte: u8) -> Option<u8>
    requires { (is_none quote && (byte == 62)) ≡ false }
    ensures { (cs : List ℕ) → after_tag_of quote (byte ∷ cs) ≡ option_map suc (after_tag_of result cs) }
{
    match quote {
        Some(open) if byte == open => None,
        None if byte == b'"' || byte == b'\'' => Some(byte),
        same => same,
    }
}

/// Whether a byte of a tag ends it, opens a quote or closes the one that is open.
fn turns(quote: Option<u8>, byte: u8) -> bool
    ensures { result ≡ false → (cs : List ℕ) → after_tag_of quote (byte ∷ cs) ≡ option_map suc (after_tag_of quote cs) }
{
    match quote {
        Some(open) => byte == open,
        None => matches!(byte, b'>' | b'"' | b'\''),
    }
}

/// The place of the byte that closes a quote, from a place on, or the text's end.
fn next_close(text: &[u8], from: usize, closing: u8) -> usize
    ensures on { from ≤ result }
    ensures goes { GoesOn (after_tag_of (Some closing)) from (after_tag_of (Some closing)) result text.now }
{
    let mut at = from;
    'bytes: while at < text.len() {
        if turns(Some(closing), text[at]) {
            return at;
        }
        at += 1;
    }
    at
}

/// The place of the first byte outside quotes that ends a tag or opens a quote, from a place on, or the text's end.
fn next_outside(text: &[u8], from: usize) -> usize
    ensures on { from ≤ result }
    ensures goes { GoesOn (after_tag_of None) from (after_tag_of None) result text.now }
{
    let mut at = from;
    'bytes: while at < text.len() {
        if turns(None, text[at]) {
            return at;
        }
        at += 1;
    }
    at
}

/// The place of the first such byte, from a place on, or the text's end.
fn next_turn(text: &[u8], from: usize, quote: Option<u8>) -> usize
    ensures on { from ≤ result }
    ensures goes { GoesOn (after_tag_of quote) from (after_tag_of quote) result text.now }
{
    match quote {
        Some(open) => next_close(text, from, open),
        None => next_outside(text, from),
    }
}

/// How far a tag goes on, from a place on: most of it, where it is long.
fn behind_most(text: &[u8], from: Sought) -> Sought
    ensures { GoesOn (after_tag_of from.quote) from.at (after_tag_of result.quote) result.at text.now }
{
    match from.quote {
        Some(_) => from,
        None => behind_parts(text, from.at),
    }
}

/// Where the first `>` outside quotes ends, from a place on.
fn after_tag(text: &[u8], from: Sought) -> End
    ensures value { found result ≡ further from.at (after_tag_of from.quote (drop from.at text.now)) }
    ensures within { IfSome (found result) (λ n. n ≤ length text.now) }
    ensures goes { (s : _) → result ≡ End.Beyond s
        → GoesOn (after_tag_of from.quote) from.at (after_tag_of s.quote) s.at text.now }
{
    let near = behind_most(text, from);
    let mut at = near.at;
    let mut quote = near.quote;
    'bytes: while at < text.len() {
        if ends_tag(quote, text[at]) {
            return End::At(at + 1);
        }
        quote = quote_behind(quote, text[at]);
        at = next_turn(text, at + 1, quote);
    }
    End::Beyond(Sought { at, quote })
}

/// Where a construct of a kind ends, from a place on.
fn seek(kind: Kind, text: &[u8], from: Sought) -> End
    ensures value { found result ≡ further from.at (seek_of kind from.quote (drop from.at text.now)) }
    ensures within { IfSome (found result) (λ n. n ≤ length text.now) }
    ensures goes { (s : _) → result ≡ End.Beyond s
        → GoesOn (seek_of kind from.quote) from.at (seek_of kind s.quote) s.at text.now }
{
    match kind {
        Kind::Declaration | Kind::Instruction => after(text, from.at, b"?>"),
        Kind::Comment => after(text, from.at, b"-->"),
        Kind::Cdata => after(text, from.at, b"]]>"),
        Kind::Unknown | Kind::EndTag => after_byte(text, from.at, b'>'),
        Kind::Doctype | Kind::StartTag => after_tag(text, from),
        Kind::Reference => reference_size(text, from.at),
        Kind::Text => text_size(text, from.at),
    }
}

/// With how many bytes a construct of a kind begins, in which its end isn't looked for.
fn head_size(kind: Kind) -> usize
    ensures { result ≡ skipped kind }
{
    match kind {
        Kind::Comment => 4,
        Kind::Cdata | Kind::Doctype => 9,
        Kind::Unknown | Kind::EndTag => 2,
        Kind::Declaration | Kind::Instruction | Kind::StartTag | Kind::Reference | Kind::Text => 1,
    }
}

/// From where the end of a construct of a kind is to be looked for.
fn sought_from(kind: Kind, sought: Sought) -> Sought
    ensures { (first : _) (cs : List ℕ) → kind ≡ kind_of_spec first cs → IsSought first cs sought
        → (more : List ℕ) → size_by_spec kind (cs ++ more) ≡ further result.at (seek_of kind result.quote (drop result.at (cs ++ more))) }
{
    if sought.at == 0 {
        return Sought {
            at: head_size(kind),
            quote: None,
        };
    }
    sought
}

/// Where the first construct ends, whatever follows. What its first bytes are is certain once there are nine.
fn first_end(first: bool, text: &[u8], sought: Sought) -> End
    requires { IsSought first text.now sought }
    ensures value { found result ≡ size_of first text.now }
    ensures within { IfSome (found result) (λ n. n ≤ length text.now) }
    ensures goes { (s : _) → result ≡ End.Beyond s → IsSought first text.now s }
{
    let kind = kind_of(first, text);
    let end = seek(kind, text, sought_from(kind, sought));
    match end {
        End::Beyond(_) if text.len() < 9 => End::Beyond(unsought()),
        end => end,
    }
}

/// A text or a reference.
fn is_run(text: &[u8]) -> bool
    ensures { result ≡ is_run_of text.now }
{
    match text.split_first() {
        Some((first, _)) => *first != b'<',
        None => false,
    }
}

/// Where the first construct of a page's rest ends. `ended` says that the page's characters end well, and `sought` how far
/// the end was looked for before.
#[inline(always)]
pub fn whole_size(ended: bool, first: bool, text: &[u8], sought: Sought) -> End
    requires { IsSought first text.now sought }
    ensures value { found result ≡ whole_size_of ended first text.now }
    ensures within { IfSome (found result) (λ n. n ≤ length text.now) }
    ensures goes { (s : _) → result ≡ End.Beyond s → IsSought first text.now s }
{
    match first_end(first, text, sought) {
        End::Beyond(_) if ended && is_run(text) => End::At(text.len()),
        end => end,
    }
}
