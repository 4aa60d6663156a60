//! The first character of some bytes, and as many plain ones as are taken in one go.

ghost use Rattle.std.specs.Prelude.{◌≡◌, ◌<◌, ◌≤◌, true, length, take};
ghost use Rattle.std.specs.List.{list_all};
ghost use Rattle.std.specs.Str.Lossy.{utf8_valid_len};
ghost use Rattle.page_text.specs.Plain.{are_plain, is_clear};
ghost use Rattle.page_text.specs.Fronts.{front};

use bstr::decode_utf8;
use ix_base::is_allowed;
use ix_base::limits::PIECE;

/// What stands at the front of some bytes.
#[derive(Clone, Copy, Debug, PartialEq, Eq)]
pub(crate) enum Front {
    /// A character that a page may have.
    Allowed(char),
    /// A character that a page may not have.
    Banned,
    /// The first bytes of a character, and nothing else.
    Part,
    /// No character.
    Ill,
}

/// What stands there; the bytes must not be none.
pub(crate) fn front_of(bytes: &[u8]) -> Front
    requires { 0 < length bytes.now }
    ensures exact { result ≡ front bytes.now }
    ensures part { result ≡ Front.Part → length bytes.now < 4 }
{
    let (ch, size) = decode_utf8(bytes);
    match ch {
        Some(ch) if is_allowed(ch) => Front::Allowed(ch),
        Some(_) => Front::Banned,
        None => {
            if bytes.len() < 4 && size == bytes.len() && 0xC2 <= bytes[0] && bytes[0] <= 0xF4 {
                Front::Part
            } else {
                Front::Ill
            }
        }
    }
}

/// A byte that no other character than a plain one has, as first or as only byte: no control character of ASCII but
/// tab and line feed, and not the first byte of U+FEFF, U+FFFE and U+FFFF.
fn is_clear(byte: u8) -> bool
    ensures { result ≡ is_clear byte }
{
    // Letters, digits and blanks by one comparison.
    matches!(byte, 0x20..=0xEE) || matches!(byte, b'\t' | b'\n' | 0xF0..=0xFF)
}

/// How many bytes are looked at together, whatever each of them is.
const BLOCK: usize = 64;

/// Whether bytes are clear. It looks at all of them, so that a compiler can let it look at several in one step.
fn are_clear(bytes: &[u8]) -> bool
    ensures { result ≡ list_all is_clear bytes.now }
{
    let mut all = true;
    for byte in bytes {
        all = is_clear(*byte) & all;
    }
    all
}

/// How many bytes at the front are clear, by whole blocks.
fn clear_blocks(bytes: &[u8]) -> usize
    ensures within { result ≤ length bytes.now }
    ensures clear { list_all is_clear (take result bytes.now) ≡ true }
{
    let mut at = 0;
    while BLOCK <= bytes.len() - at && are_clear(&bytes[at..at + BLOCK]) {
        at += BLOCK;
    }
    at
}

/// How many bytes at the front are clear, as far as they are taken in one go.
fn clear_size(bytes: &[u8]) -> usize
    ensures within { result ≤ length bytes.now }
    ensures clear { list_all is_clear (take result bytes.now) ≡ true }
{
    let (front, _) = bytes.split_at(bytes.len().min(PIECE));
    let mut at = clear_blocks(front);
    while at < front.len() && is_clear(front[at]) {
        at += 1;
    }
    at
}

/// The whole characters at the front.
fn utf8_front(bytes: &[u8]) -> &str
    ensures { result.now ≡ take (utf8_valid_len bytes.now) bytes.now }
{
    match str::from_utf8(bytes) {
        Ok(text) => text,
        Err(error) => str::from_utf8(&bytes[..error.valid_up_to()]).unwrap_or(""),
    }
}

/// Plain characters at the front, as a text.
pub(crate) fn plain_front(bytes: &[u8]) -> &str
    ensures front { result.now ≡ take (length result.now) bytes.now }
    ensures plain { are_plain result.now ≡ true }
{
    utf8_front(&bytes[..clear_size(bytes)])
}
