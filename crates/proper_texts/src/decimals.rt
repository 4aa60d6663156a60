//! Decimals in their canonical form.
ghost use Rattle.std.specs.Prelude.{◌≡◌, ◌++◌, bytes_eq};
ghost use Rattle.ix_base.specs.Decimals.{back_of, front_of, pointed};
ghost use Rattle.ix_base.specs.Forms as forms;

use scale_sign::{all_digits, is_digit, parts_of};

/// Whether a text is digits, of which the first is no 0 where others follow it.
fn is_whole(text: &[u8]) -> bool
    ensures { result ≡ forms.is_whole_part text.now }
{
    match text {
        [] => false,
        [digit] => is_digit(*digit),
        [first, rest @ ..] => is_digit(*first) && *first != b'0' && all_digits(rest),
    }
}

/// Whether a text is digits that don't end in 0, or empty.
fn is_fraction(text: &[u8]) -> bool
    ensures { result ≡ forms.is_fraction_part text.now }
{
    let [first, rest @ ..] = text else {
        return true;
    };
    let mut last = *first;
    for next in rest {
        if !is_digit(last) {
            return false;
        }
        last = *next;
    }
    is_digit(last) && last != b'0'
}

/// Whether a text has a point only where something is behind it.
#[tactic(auto, using(crate::proofs::DecimalLaws::spelled))]
fn is_spelled(text: &[u8], front: &[u8], back: &[u8]) -> bool
    requires front { front.now ≡ front_of text.now }
    requires back { back.now ≡ back_of text.now }
    ensures { result ≡ bytes_eq text.now (front.now ++ pointed back.now) }
{
    !back.is_empty() || front.len() == text.len()
}

/// Whether a text is a canonical decimal without a sign.
fn is_canonical_unsigned(text: &[u8]) -> bool
    ensures { result ≡ forms.is_canonical_unsigned text.now }
{
    let (front, back) = parts_of(text);
    is_whole(front) && is_fraction(back) && is_spelled(text, front, back)
}

/// Whether a text is `0`.
fn is_nothing(text: &[u8]) -> bool
    ensures { result ≡ forms.is_zero text.now }
{
    text == b"0".as_slice()
}

fn is_canonical(text: &[u8]) -> bool
    ensures { result ≡ forms.is_canonical_decimal text.now }
{
    match text {
        [] => false,
        [b'-', rest @ ..] => is_canonical_unsigned(rest) && !is_nothing(rest),
        [_, ..] => is_canonical_unsigned(text),
    }
}

/// Whether a text is a canonical decimal.
pub fn is_canonical_decimal(text: &str) -> bool
    ensures { result ≡ forms.is_canonical_decimal text.now }
{
    is_canonical(text.as_bytes())
}

/// Whether a text is the canonical decimal of zero.
pub fn is_zero(text: &str) -> bool
    ensures { result ≡ forms.is_zero text.now }
{
    is_nothing(text.as_bytes())
}

/// Whether a text is a canonical decimal without a point.
pub fn is_normal_integer(text: &str) -> bool
    ensures { result ≡ forms.is_normal_integer text.now }
{
    let (_, back) = parts_of(text.as_bytes());
    is_canonical_decimal(text) && back.is_empty()
}

/// Whether a text is digits, of which the first is no 0 where others follow it.
pub fn is_whole_part(text: &str) -> bool
    ensures { result ≡ forms.is_whole_part text.now }
{
    is_whole(text.as_bytes())
}
