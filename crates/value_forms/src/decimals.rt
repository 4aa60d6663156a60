//! Decimals with a sign.
ghost use Rattle.std.specs.Prelude.{◌≡◌};
ghost use Rattle.ix_base.specs.Forms as forms;

use scale_sign::is_unsigned;

/// Whether a text is an unsigned decimal. It takes no memory.
pub fn is_unsigned_decimal(text: &str) -> bool
    ensures { result ≡ forms.is_unsigned text.now }
{
    is_unsigned(text)
}

/// A text without the sign that may stand in front. It takes no memory.
pub fn without_sign(text: &str) -> &str
    ensures { result.now ≡ forms.unsigned_of text.now }
{
    match text.strip_prefix('+') {
        Some(rest) => rest,
        None => match text.strip_prefix('-') {
            Some(rest) => rest,
            None => text,
        },
    }
}
