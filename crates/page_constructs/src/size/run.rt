//! Where texts and references end.
ghost use Rattle.std.specs.Prelude.{◌≡◌, ◌==◌, ◌||◌, ◌≤◌, length, drop, IfSome};
ghost use Rattle.std.specs.List.{list_all};
ghost use Rattle.ix_base.specs.NcName.{is_white as is_white_byte};
ghost use Rattle.page_constructs.specs.Constructs.{text_size as text_size_of, reference_size as reference_size_of};
ghost use Rattle.page_constructs.specs.Searches.{further, found, GoesOn};
ghost use Rattle.page_constructs.specs.Stops.{is_text};

use crate::size::{End, Sought};
use ix_base::is_white;

/// Whether a byte ends a text.
fn is_markup(byte: u8) -> bool
    ensures { result ≡ (byte == 60 || byte == 38) }
{
    byte == b'<' || byte == b'&'
}

/// How many bytes of a text are looked at one by one before whole blocks are. Most texts are shorter.
const NEAR: usize = 32;

/// How many bytes are looked at together, whatever each of them is.
const BLOCK: usize = 64;

/// Whether no byte ends a text. It looks at all of them, so that a compiler can let it look at several in one step.
fn are_text(bytes: &[u8]) -> bool
    ensures { result ≡ list_all is_text bytes.now }
{
    let mut all = true;
    for byte in bytes {
        all = !is_markup(*byte) & all;
    }
    all
}

/// The place behind as many whole blocks as a text goes on through, from a place on.
fn behind_blocks(text: &[u8], from: usize) -> usize
    ensures on { from ≤ result }
    ensures goes { GoesOn text_size_of from text_size_of result text.now }
{
    let mut at = from;
    'parts: while at < text.len() && BLOCK <= text.len() - at && are_text(&text[at..at + BLOCK]) {
        at += BLOCK;
    }
    at
}

/// The place to which a text goes on from a place on, among the next bytes.
fn behind_near(text: &[u8], from: usize) -> usize
    ensures on { from ≤ result }
    ensures goes { GoesOn text_size_of from text_size_of result text.now }
{
    let mut at = from;
    'bytes: while at < text.len() && at - from < NEAR {
        if is_markup(text[at]) {
            return at;
        }
        at += 1;
    }
    at
}

/// A place to which a text goes on from a place on: most of it, where it is long.
fn behind_most(text: &[u8], from: usize) -> usize
    ensures { GoesOn text_size_of from text_size_of result text.now }
{
    let near = behind_near(text, from);
    if near - from < NEAR {
        return near;
    }
    behind_blocks(text, near)
}

/// Where a text goes on to, from a place on.
pub(super) fn text_size(text: &[u8], from: usize) -> End
    ensures value { found result ≡ further from (text_size_of (drop from text.now)) }
    ensures within { IfSome (found result) (λ n. n ≤ length text.now) }
    ensures goes { (s : _) → result ≡ End.Beyond s → GoesOn text_size_of from text_size_of s.at text.now }
{
    let mut at = behind_most(text, from);
    'bytes: while at < text.len() {
        if is_markup(text[at]) {
            return End::At(at);
        }
        at += 1;
    }
    End::Beyond(Sought { at, quote: None })
}

/// Whether a byte ends a reference and doesn't belong to it.
fn ends_reference(byte: u8) -> bool
    ensures { result ≡ (is_white_byte byte || byte == 60 || byte == 38) }
{
    is_white(byte) || byte == b'<' || byte == b'&'
}

/// Where a reference goes on to, from a place on.
pub(super) fn reference_size(text: &[u8], from: usize) -> End
    ensures value { found result ≡ further from (reference_size_of (drop from text.now)) }
    ensures within { IfSome (found result) (λ n. n ≤ length text.now) }
    ensures goes { (s : _) → result ≡ End.Beyond s → GoesOn reference_size_of from reference_size_of s.at text.now }
{
    let mut at = from;
    'bytes: while at < text.len() {
        if text[at] == b';' {
            return End::At(at + 1);
        }
        if ends_reference(text[at]) {
            return End::At(at);
        }
        at += 1;
    }
    End::Beyond(Sought { at, quote: None })
}
