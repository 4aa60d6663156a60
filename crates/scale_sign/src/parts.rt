//! The parts of a decimal, in front of its point and behind it.

ghost use Rattle.std.specs.Prelude.{◌≡◌, ◌+◌, ◌<◌, ◌≤◌, ◌++◌, ◌==◌, ◌↔◌, ◌&&◌, not, IsTrue, length, take, drop};
ghost use Rattle.ix_base.specs.Decimals.{front_of, back_of, AreDigits, number_in};

use crate::lexical::all_digits;

// Where the first point stands, or the length.
fn point_of(text: &[u8]) -> usize
    ensures bound { result ≤ length text.now }
    ensures front { take result text.now ≡ front_of text.now }
    ensures back { drop (result + 1) text.now ≡ back_of text.now }
{
    let mut point = 0;
    while point < text.len() && text[point] != b'.' {
        point += 1;
    }
    point
}

// What stands behind a place.
fn behind(text: &[u8], place: usize) -> &[u8]
    requires { place ≤ length text.now }
    ensures { result.now ≡ drop (place + 1) text.now }
{
    if place < text.len() {
        &text[place + 1..]
    } else {
        &text[place..]
    }
}

/// What stands in front of the first point of a text, and behind it.
pub fn parts_of(text: &[u8]) -> (&[u8], &[u8])
    ensures front { result.0.now ≡ front_of text.now }
    ensures back { result.1.now ≡ back_of text.now }
    ensures bound { length result.0.now + length result.1.now ≤ length text.now }
{
    let point = point_of(text);
    (&text[..point], behind(text, point))
}

// Whether the number that digits write isn't 0.
fn has_value(digits: &[u8]) -> bool
    requires { AreDigits digits.now }
    ensures { IsTrue result ↔ (0 < number_in digits.now) }
{
    for digit in digits {
        if *digit != b'0' {
            return true;
        }
    }
    false
}

/// Whether a decimal of these parts, with a minus in front where `has_minus` holds, is less than 0. The parts are digits
/// in front of the point and behind it.
pub fn is_negative(has_minus: bool, front: &[u8], back: &[u8]) -> bool
    requires { AreDigits (front.now ++ back.now) }
    ensures { result ≡ (has_minus && not (number_in (front.now ++ back.now) == 0)) }
{
    has_minus && (has_value(front) || has_value(back))
}

// Whether both are empty.
pub fn are_empty(first: &[u8], second: &[u8]) -> bool
    ensures { result ≡ (length (first.now ++ second.now) == 0) }
{
    first.is_empty() && second.is_empty()
}

// Whether each byte of both is a digit.
pub fn are_both_digits(front: &[u8], back: &[u8]) -> bool
    ensures { IsTrue result ↔ AreDigits (front.now ++ back.now) }
{
    all_digits(front) && all_digits(back)
}
