//! How exact numbers are, in normal form.
ghost use Rattle.std.specs.Prelude.{◌≡◌, IfOk};
ghost use Rattle.ix_base.specs.Forms as form;
ghost use Rattle.ix_base.specs.Trees.{tree_of};
ghost use Rattle.facts.specs.Exactness as exactness;

use ix_base::{Accuracy, Element, Kind, NoMemory, Text, attr_of, token};
use scale_sign::has_minus;
use std::alloc::Global;
use value_forms::{is_nil, without_sign};

/// Digits without the zeros in front.
fn without_zeros(mut text: &str) -> &str
    ensures { result.now ≡ form.without_zeros text.entry.now }
{
    while let [first, ..] = text.as_bytes()
        && *first == b'0'
    {
        text = &text[1..];
    }
    text
}

/// Digits with their sign. Without digits it is zero.
fn signed_digits(alloc: Global, negative: bool, digits: &str) -> Result<Text, NoMemory>
    ensures { IfOk result (λ t. t ≡ form.signed_digits negative digits.now) }
{
    if digits.is_empty() {
        return Text::of(alloc, "0");
    }
    if !negative {
        return Text::of(alloc, digits);
    }
    let mut text = Text::of(alloc, "-")?;
    text.push(digits)?;
    Ok(text)
}

/// An integer in normal form.
fn integer_form(alloc: Global, text: &str) -> Result<Text, NoMemory>
    ensures { IfOk result (λ t. t ≡ form.integer_form text.now) }
{
    let negative = has_minus(text.as_bytes());
    signed_digits(alloc, negative, without_zeros(without_sign(text)))
}

/// `INF`, or an integer in normal form.
fn exact_form(alloc: Global, value: &str) -> Result<Text, NoMemory>
    ensures { IfOk result (λ t. t ≡ exactness.exact_form value.now) }
{
    let text = token(value);
    if text == "INF" {
        return Text::of(alloc, "INF");
    }
    integer_form(alloc, text)
}

/// What `decimals` says, or else `precision`.
fn accuracy_at(alloc: Global, e: &Element<'_>) -> Result<Option<Accuracy>, NoMemory>
    ensures { IfOk result (λ o. o ≡ exactness.accuracy_at (tree_of e.now)) }
{
    if let Some(value) = attr_of(e, "", "decimals") {
        return Ok(Some(Accuracy::Decimals(exact_form(alloc, value)?)));
    }
    match attr_of(e, "", "precision") {
        Some(value) => Ok(Some(Accuracy::Precision(exact_form(alloc, value)?))),
        None => Ok(None),
    }
}

/// How exact a number is, unless it is nil.
fn accuracy_by(alloc: Global, nil: bool, e: &Element<'_>) -> Result<Option<Accuracy>, NoMemory>
    ensures { IfOk result (λ o. o ≡ exactness.accuracy_by nil (tree_of e.now)) }
{
    if nil {
        return Ok(None);
    }
    accuracy_at(alloc, e)
}

/// How exact the number of an item of this kind is.
pub(crate) fn accuracy_of(
    alloc: Global,
    kind: Kind,
    e: &Element<'_>,
) -> Result<Option<Accuracy>, NoMemory>
    ensures { IfOk result (λ o. o ≡ exactness.accuracy_of kind (tree_of e.now)) }
{
    match kind {
        Kind::NonFraction => accuracy_by(alloc, is_nil(e), e),
        _ => Ok(None),
    }
}
