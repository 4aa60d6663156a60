//! What references mean, and the values of attributes.
ghost use Rattle.std.specs.Prelude.{◌≡◌, ◌≤◌, ◌<◌, [], None, Some, IsTrue, length, option_map, IfOk, IfSome, encode_utf8};
ghost use Rattle.std.specs.Option.{option_and_then};
ghost use Rattle.std.specs.Str.{IsUtf8};
ghost use Rattle.std.specs.String.{string_bytes};
ghost use Rattle.page_constructs.specs.Values.{digit as digit_of, below, number_in as number_in_of, allowed as allowed_of, referred as referred_of, meant_in, value_of as value_of_spec, referred_by as referred_by_of};
ghost use Rattle.page_constructs.specs.Spans.{up_to_beyond, after_char};
ghost use Rattle.page_constructs.specs.Stops.{begins_special};

use crate::kind::behind_first;
use crate::meaning::span::{Stop, split};
use bumpalo::Bump;
use ix_base::{NoMemory, is_allowed};
use std::alloc::Global;

/// Above the numbers of all characters.
const BEYOND: u32 = 0x11_0000;

fn digit(byte: u8) -> Option<u32>
    ensures { result ≡ digit_of byte }
{
    match byte {
        b'0'..=b'9' => Some(u32::from(byte - b'0')),
        b'A'..=b'F' => Some(u32::from(byte - b'A') + 10),
        b'a'..=b'f' => Some(u32::from(byte - b'a') + 10),
        _ => None,
    }
}

fn digit_below(base: u32, byte: u8) -> Option<u32>
    ensures value { result ≡ below base (digit_of byte) }
    ensures bound { IfSome result (λ d. d < base) }
{
    match digit(byte) {
        Some(digit) if digit < base => Some(digit),
        _ => None,
    }
}

/// The number that one or more digits of a base write. It may have any number of digits, and grows no further once it is
/// above all characters.
fn number_in(base: u32, digits: &[u8]) -> Option<u32>
    requires some { 0 < base }
    requires few { base ≤ 16 }
    ensures { result ≡ option_map up_to_beyond (number_in_of base digits.now) }
{
    if digits.is_empty() {
        return None;
    }
    let mut number = 0;
    for byte in digits {
        let digit = digit_below(base, *byte)?;
        number = (number * base + digit).min(BEYOND);
    }
    Some(number)
}

fn allowed(number: u32) -> Option<char>
    ensures { result ≡ allowed_of number }
{
    match char::from_u32(number) {
        Some(ch) if is_allowed(ch) => Some(ch),
        _ => None,
    }
}

/// The character that digits of a base write.
fn numbered(base: u32, digits: &[u8]) -> Option<char>
    requires some { 0 < base }
    requires few { base ≤ 16 }
    ensures { result ≡ option_and_then allowed_of (number_in_of base digits.now) }
{
    allowed(number_in(base, digits)?)
}

/// The character that a reference means, by what stands between its `&` and its `;`.
#[tactic(auto, unfolding(crate::specs::Values::referred))]
fn referred(inner: &[u8]) -> Option<char>
    ensures { result ≡ referred_of inner.now }
{
    match inner {
        b"lt" => Some('<'),
        b"gt" => Some('>'),
        b"amp" => Some('&'),
        b"apos" => Some('\''),
        b"quot" => Some('"'),
        [b'#', b'x', digits @ ..] => numbered(16, digits),
        [b'#', digits @ ..] => numbered(10, digits),
        _ => None,
    }
}

/// The character that a reference means, behind its `&`, and what is behind its `;`.
fn referred_at(text: &str) -> Option<(char, &str)>
    ensures value { after_char result ≡ meant_in (Some []) text.now }
    ensures shorter { IfSome result (λ r. length r.1.now < length text.now) }
    ensures text { IfSome result (λ r. IsUtf8 r.1.now) }
{
    let (inner, rest) = text.split_once(';')?;
    let ch = referred(inner.as_bytes())?;
    Some((ch, rest))
}

/// The character that is meant at the front of a value that doesn't mean itself there, and what is behind: a reference
/// means its character, and a tab or a line feed a space.
fn special_at(text: &str) -> Option<(char, &str)>
    requires { IsTrue (begins_special text.now) }
    ensures value { after_char result ≡ meant_in None text.now }
    ensures shorter { IfSome result (λ r. length r.1.now < length text.now) }
    ensures text { IfSome result (λ r. IsUtf8 r.1.now) }
{
    match text.strip_prefix('&') {
        Some(reference) => referred_at(reference),
        None => {
            let (_, behind) = text.split_at(1);
            Some((' ', behind))
        }
    }
}

/// What is written in a value, as what it means; none where a reference is bad.
fn value_in(alloc: Global, raw: &str) -> Result<Option<String>, NoMemory>
    ensures { IfOk result (λ r. option_map string_bytes r ≡ value_of_spec raw.now) }
{
    let mut value = String::new(alloc);
    let mut rest = raw;
    loop {
        let (plain, special) = split(rest, Stop::Special);
        value.push_str(plain)?;
        if special.is_empty() {
            return Ok(Some(value));
        }
        match special_at(special) {
            Some((ch, more)) => {
                value.push(ch)?;
                rest = more;
            }
            None => return Ok(None),
        }
    }
}

/// The same, in the arena.
pub(crate) fn value_of<'a>(
    alloc: Global,
    arena: &'a Bump,
    raw: &str,
) -> Result<Option<&'a str>, NoMemory>
    ensures { IfOk result (λ r. option_map (λ v. v.now) r ≡ value_of_spec raw.now) }
{
    let (plain, special) = split(raw, Stop::Special);
    if special.is_empty() {
        return Ok(Some(arena.try_alloc_str(plain)?));
    }
    match value_in(alloc, raw)? {
        Some(value) => Ok(Some(arena.try_alloc_str(value.as_str())?)),
        None => Ok(None),
    }
}

/// What a whole construct that begins with `&` means.
pub(crate) fn referred_by(text: &str) -> Option<char>
    ensures { option_map encode_utf8 result ≡ referred_by_of text.now }
{
    let (last, front) = text.as_bytes().split_last()?;
    if *last == b';' {
        referred(behind_first(front, 1))
    } else {
        None
    }
}
