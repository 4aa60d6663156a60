//! Orders as canonical decimals.
ghost use Rattle.std.specs.Prelude.{◌≡◌, ◌+◌, ◌≤◌, IfOk, length, pos};
ghost use Rattle.ix_base.specs.Decimals.{IsUnsigned};
ghost use Rattle.scale_sign.specs.Scaled.{IsNumber};
ghost use Rattle.footnotes.specs.FootnoteLinks as footnote_links;

use ix_base::{NoMemory, Text, text_at, zeros};
use scale_sign::{has_minus, numbers_are_text, scaled};
use std::alloc::Global;
use value_forms::{is_unsigned_decimal, without_sign};

/// An unsigned decimal with a sign in canonical form, written into this buffer.
fn written_in(alloc: Global, digits: &str, negative: bool, out: &mut [u8]) -> Result<Text, NoMemory>
    requires unsigned { IsUnsigned digits.now }
    requires room { length digits.now + 3 ≤ length out.old }
    ensures { IfOk result (λ t. IsNumber digits.now (pos 0) negative t) }
{
    numbers_are_text();
    let count = scaled(digits, 0, negative, out);
    text_at(alloc, out, count)
}

/// An unsigned decimal with a sign in canonical form.
fn written(alloc: Global, digits: &str, negative: bool) -> Result<Text, NoMemory>
    requires { IsUnsigned digits.now }
    ensures { IfOk result (λ t. IsNumber digits.now (pos 0) negative t) }
{
    let mut out = zeros(alloc, digits.len() + 3)?;
    written_in(alloc, digits, negative, out.as_mut_slice())
}

/// An order as a canonical decimal. A text that isn't a decimal stands as it is.
pub(crate) fn canonical_order(alloc: Global, text: &str) -> Result<Text, NoMemory>
    ensures { IfOk result (λ t. t ≡ footnote_links.canonical_order text.now) }
{
    let digits = without_sign(text);
    if is_unsigned_decimal(digits) {
        written(alloc, digits, has_minus(text.as_bytes()))
    } else {
        Text::of(alloc, text)
    }
}
