//! Digits and signs (XML Schema Part 2, sections 3.2.3 and 3.3.13).
ghost use Rattle.std.specs.Prelude.{◌≡◌};
ghost use Rattle.std.specs.List.{list_all};
ghost use Rattle.ix_base.specs.Forms as forms;

/// Whether a byte is one of the ten digits.
pub fn is_digit(byte: u8) -> bool
    ensures { result ≡ forms.is_digit byte }
{
    byte.is_ascii_digit()
}

/// Whether all bytes of a text are digits, as those of an empty one are.
pub fn all_digits(text: &[u8]) -> bool
    ensures { result ≡ list_all forms.is_digit text.now }
{
    text.iter().all(|byte| is_digit(*byte))
}

/// Whether a minus stands in front of a text.
pub fn has_minus(text: &[u8]) -> bool
    ensures { result ≡ forms.is_negative text.now }
{
    match text {
        [b'-', ..] => true,
        _ => false,
    }
}

/// A text without the sign that may stand in front.
pub fn unsigned_of(text: &[u8]) -> &[u8]
    ensures { result.now ≡ forms.unsigned_of text.now }
{
    match text {
        [b'+' | b'-', rest @ ..] => rest,
        _ => text,
    }
}
