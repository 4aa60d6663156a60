//! Spans of a text, and what stands behind them.
ghost use Rattle.std.specs.Prelude.{◌≡◌, ◌≤◌, ◌<◌, length, option_map, IfSome};
ghost use Rattle.page_constructs.specs.Meanings.{before, from, behind_white as behind_white_of, is_white_text as is_white_text_of, behind_front as behind_front_of, quoted as quoted_of, equalled as equalled_of};
ghost use Rattle.page_constructs.specs.Stops.{stops};
ghost use Rattle.page_constructs.specs.Spans.{parted};

use ix_base::is_white;

/// What ends a span of a text: always a byte that is a character by itself, or whatever isn't white space.
#[derive(Clone, Copy)]
pub(crate) enum Stop {
    White,
    /// What isn't white space.
    Dark,
    /// What ends the name of an attribute.
    Name,
    /// What ends the name of a tag.
    TagName,
    /// What doesn't mean itself in a value.
    Special,
    /// What isn't itself in a value between `"`, and `"`.
    Odd,
    /// `"`.
    Double,
    /// `'`.
    Single,
}

fn stops_at(stop: Stop, byte: u8) -> bool
    ensures { result ≡ stops stop byte }
{
    match stop {
        Stop::White => is_white(byte),
        Stop::Dark => !is_white(byte),
        Stop::Name => is_white(byte) || byte == b'=',
        Stop::TagName => is_white(byte) || byte == b'/',
        Stop::Special => matches!(byte, b'&' | b'\t' | b'\n'),
        Stop::Odd => matches!(byte, b'"' | b'<' | b'&' | b'\t' | b'\n'),
        Stop::Double => byte == b'"',
        Stop::Single => byte == b'\'',
    }
}

/// How many bytes stand before the first that stops.
fn size_before(text: &[u8], stop: Stop) -> usize
    ensures { result ≡ length (before (stops stop) text.now) }
{
    for (at, byte) in text.iter().enumerate() {
        if stops_at(stop, *byte) {
            return at;
        }
    }
    text.len()
}

/// What stands before the first byte that stops, and what stands from it on.
pub(crate) fn split(text: &str, stop: Stop) -> (&str, &str)
    ensures before { result.0.now ≡ before (stops stop) text.now }
    ensures from { result.1.now ≡ from (stops stop) text.now }
{
    text.split_at(size_before(text.as_bytes(), stop))
}

pub(crate) fn behind_white(text: &str) -> &str
    ensures { result.now ≡ behind_white_of text.now }
{
    let (_, dark) = split(text, Stop::Dark);
    dark
}

pub(crate) fn is_white_text(text: &str) -> bool
    ensures { result ≡ is_white_text_of text.now }
{
    behind_white(text).is_empty()
}

/// What stands behind this text at the front.
pub(crate) fn behind_front<'t>(front: &str, text: &'t str) -> Option<&'t str>
    ensures { option_map (λ r. r.now) result ≡ behind_front_of front.now text.now }
{
    text.strip_prefix(front)
}

/// A value in the quotes that stand at the front, as it is written, and what is behind it.
fn quoted(text: &str) -> Option<(&str, &str)>
    ensures { option_map parted result ≡ quoted_of text.now }
{
    if let Some(value) = text.strip_prefix('"') {
        let (raw, behind) = split(value, Stop::Double);
        return Some((raw, behind.strip_prefix('"')?));
    }
    let value = text.strip_prefix('\'')?;
    let (raw, behind) = split(value, Stop::Single);
    Some((raw, behind.strip_prefix('\'')?))
}

/// The same behind `=`, with white space allowed around that.
pub(crate) fn equalled(text: &str) -> Option<(&str, &str)>
    ensures { option_map parted result ≡ equalled_of text.now }
{
    let value = behind_front("=", behind_white(text))?;
    quoted(behind_white(value))
}
