//! Scale and sign: tells an unsigned decimal, and moves its point by a scale. Both work on texts of any length: no
//! value passes through a machine integer.
#![tactic(auto)]

ghost use Rattle.std.specs.Prelude.{◌≡◌, ◌+◌, ◌≤◌, ◌↔◌, ℕ, ℤ, Bool, IsTrue, List, length, take, unsigned_abs};
ghost use Rattle.std.specs.Str.{IsUtf8};
ghost use Rattle.ix_base.specs.Decimals.{IsUnsigned};
ghost use Rattle.ix_base.specs.declared.limits.TheConstants.{LARGEST_SCALE};
ghost use Rattle.scale_sign.specs.Scaled.{IsNumber};

mod lexical;
mod parts;
mod writer;

pub use lexical::{all_digits, has_minus, is_digit, unsigned_of};
use parts::{are_both_digits, are_empty};
pub use parts::{is_negative, parts_of};
use writer::{put_sign, write_moved};
pub use writer::{stripped, trimmed};

/// Whether the text is an unsigned decimal: digits, digits `.`, digits `.` digits, or `.` digits.
pub fn is_unsigned(text: &str) -> bool
    ensures { IsTrue result ↔ IsUnsigned text.now }
{
    let (front, back) = parts_of(text.as_bytes());
    if are_empty(front, back) {
        false
    } else {
        are_both_digits(front, back)
    }
}

/// Writes `digits` times ten to the power of `scale` as a canonical decimal to the front of `out`, with `-` where
/// `negative` holds and the number isn't zero, and gives the length of the text in bytes. What stands in `out` behind
/// the text is left open.
///
/// The canonical decimal has no needless zero in front and none at the end of its part behind the point, and has a
/// point only where such a part stands.
pub fn scaled(digits: &str, scale: i32, negative: bool, out: &mut [u8]) -> usize
    requires unsigned { IsUnsigned digits.now }
    requires scale { unsigned_abs scale ≤ LARGEST_SCALE }
    requires room { length digits.now + unsigned_abs scale + 3 ≤ length out.old }
    ensures number { IsNumber digits.now scale negative (take result out.new) }
    ensures bound { result ≤ length out.new }
{
    let (front, back) = parts_of(digits.as_bytes());
    let start = put_sign(out, is_negative(negative, front, back));
    write_moved(out, start, front, back, scale)
}

/// A law: an unsigned decimal, a scale and a sign have at most one text, at every scale.
pub fn one_number()
    ensures { (digits : List ℕ) → (scale : ℤ) → (negative : Bool) → (s t : List ℕ) →
        IsNumber digits scale negative s → IsNumber digits scale negative t → s ≡ t }
{}

/// A law: each unsigned decimal has a text at every scale and with either sign.
pub fn some_number()
    ensures { (digits : List ℕ) → (scale : ℤ) → (negative : Bool) → IsUnsigned digits →
        (text : List ℕ) × IsNumber digits scale negative text }
{}

/// A law: a scaled number is text, so that its bytes can be read as a `str`.
pub fn numbers_are_text()
    ensures { (digits : List ℕ) → (scale : ℤ) → (negative : Bool) → (text : List ℕ) →
        IsNumber digits scale negative text → IsUtf8 text }
{}
