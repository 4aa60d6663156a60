//! The formats of the Transformation Rules Registries 3 and 4, and what they make of texts.
ghost use Rattle.std.specs.Prelude.{◌≡◌, ◌≢◌, ◌+◌, ◌≤◌, ℕ, List, IfOk, IfSome, IfNone, IsErrOf, IsTrue, Some, length, false};
ghost use Rattle.std.specs.Str.{chars};
ghost use Rattle.ix_base.specs.Trees.{named};
ghost use Rattle.tr4_dates.specs.Transformation.{Tr};
ghost use Rattle.tr4_dates.specs.declared.TrFault.TheVariants as transformation;
ghost use Rattle.tr4_numbers.specs.Transformation.{IsFixedValue, IsValue};
ghost use Rattle.facts.specs.Formats.{IsFormat, Transforms, gives_number, name_in, namespace_of, registry_3, registry_4};
ghost use Rattle.facts.specs.Verdicts.{said};
ghost use Rattle.facts.specs.TextValue.{IsTransformed};
ghost use Rattle.facts.specs.declared.format.Format.{Format as FormatOf};
ghost use Rattle.facts.specs.declared.format.Registry.{Registry as RegistryOf};
ghost use Rattle.facts.specs.declared.format.Registry.TheVariants as registry;

use crate::fault::ItemFault;
use ix_base::{Name, Rule, Text, text_at, zeros};
use std::alloc::Global;
use tr4_dates::{DateFormat, TrFault};
use tr4_numbers::{FixedFormat, NumberFormat, values_are_unsigned};

const REGISTRY_3: &str = "http://www.xbrl.org/inlineXBRL/transformation/2015-02-26";

const REGISTRY_4: &str = "http://www.xbrl.org/inlineXBRL/transformation/2020-02-12";

/// A registry of formats, each with its own namespace and its own names.
#[derive(Clone, Copy)]
pub(crate) enum Registry {
    Three,
    Four,
}

/// A format, under whichever name.
#[derive(Clone, Copy)]
pub(crate) enum Format {
    Date(DateFormat),
    Fixed(FixedFormat),
    Number(NumberFormat),
}

#[tactic(auto, unfolding(crate::specs::Formats::registry_3))]
fn is_registry_3(ns: &str) -> bool
    ensures found { IsTrue result → ns.now ≡ registry_3 }
    ensures none { result ≡ false → ns.now ≢ registry_3 }
{
    ns == REGISTRY_3
}

#[tactic(auto, unfolding(crate::specs::Formats::registry_4))]
fn is_registry_4(ns: &str) -> bool
    ensures found { IsTrue result → ns.now ≡ registry_4 }
    ensures none { result ≡ false → ns.now ≢ registry_4 }
{
    ns == REGISTRY_4
}

/// The registry of this namespace.
fn registry_at(ns: &str) -> Option<Registry>
    ensures found { IfSome result (λ r. ns.now ≡ namespace_of r) }
    ensures none { IfNone result ((r : RegistryOf) → ns.now ≢ namespace_of r) }
{
    if is_registry_4(ns) {
        return Some(Registry::Four);
    }
    if is_registry_3(ns) {
        return Some(Registry::Three);
    }
    None
}

/// The format with this local name in registry 3.
fn format_in_3(local: &str) -> Option<Format>
    ensures found { IfSome result (λ format. Some local.now ≡ name_in registry.Three format) }
    ensures none { IfNone result ((format : FormatOf) → Some local.now ≢ name_in registry.Three format) }
{
    if let Some(format) = NumberFormat::named3(local) {
        return Some(Format::Number(format));
    }
    if let Some(format) = FixedFormat::named3(local) {
        return Some(Format::Fixed(format));
    }
    match DateFormat::named3(local) {
        Some(format) => Some(Format::Date(format)),
        None => None,
    }
}

/// The format with this local name in registry 4.
fn format_in_4(local: &str) -> Option<Format>
    ensures found { IfSome result (λ format. Some local.now ≡ name_in registry.Four format) }
    ensures none { IfNone result ((format : FormatOf) → Some local.now ≢ name_in registry.Four format) }
{
    if let Some(format) = NumberFormat::named(local) {
        return Some(Format::Number(format));
    }
    if let Some(format) = FixedFormat::named(local) {
        return Some(Format::Fixed(format));
    }
    match DateFormat::named(local) {
        Some(format) => Some(Format::Date(format)),
        None => None,
    }
}

/// The format with this local name in a registry.
fn format_in(registry: Registry, local: &str) -> Option<Format>
    ensures found { IfSome result (λ format. Some local.now ≡ name_in registry format) }
    ensures none { IfNone result ((format : FormatOf) → Some local.now ≢ name_in registry format) }
{
    match registry {
        Registry::Three => format_in_3(local),
        Registry::Four => format_in_4(local),
    }
}

impl Format {
    /// The format of this name.
    pub(crate) fn named(name: Name<'_>) -> Option<Format>
        ensures found { IfSome result (λ format. IsFormat (named name.entry) format) }
        ensures none { IfNone result ((format : FormatOf) → ¬ IsFormat (named name.entry) format) }
    {
        match registry_at(name.ns) {
            Some(registry) => format_in(registry, name.local),
            None => None,
        }
    }

    /// Whether a number may have it.
    pub(crate) fn gives_number(self) -> bool
        ensures { result ≡ gives_number self }
    {
        match self {
            Format::Date(_) => false,
            Format::Fixed(FixedFormat::Zero | FixedFormat::ZeroDash) => true,
            Format::Fixed(_) => false,
            Format::Number(_) => true,
        }
    }
}

/// What a number format makes of a text, written into this buffer.
fn number_in(
    alloc: Global,
    format: NumberFormat,
    text: &str,
    out: &mut [u8],
) -> Result<Text, TrFault>
    requires { length text.now + 1 ≤ length out.old }
    ensures ok { IfOk result (λ v. IsValue format (chars text.now) v) }
    ensures err { IsErrOf result transformation.NotInGrammar → (v : List ℕ) → ¬ IsValue format (chars text.now) v }
{
    values_are_unsigned();
    match tr4_numbers::apply(format, text, out) {
        Some(count) => Ok(text_at(alloc, out, count)?),
        None => Err(TrFault::NotInGrammar),
    }
}

/// What a number format makes of a text.
fn number_of(alloc: Global, format: NumberFormat, text: &str) -> Result<Text, TrFault>
    ensures ok { IfOk result (λ v. IsValue format (chars text.now) v) }
    ensures err { IsErrOf result transformation.NotInGrammar → (v : List ℕ) → ¬ IsValue format (chars text.now) v }
{
    let mut out = zeros(alloc, text.len() + 1)?;
    number_in(alloc, format, text, out.as_mut_slice())
}

/// What a fixed format makes of a text.
fn fixed_of(alloc: Global, format: FixedFormat, text: &str) -> Result<Text, TrFault>
    ensures ok { IfOk result (λ v. IsFixedValue format (chars text.now) v) }
    ensures err { IsErrOf result transformation.NotInGrammar → (v : List ℕ) → ¬ IsFixedValue format (chars text.now) v }
{
    if !format.accepts(text) {
        return Err(TrFault::NotInGrammar);
    }
    Ok(Text::of(alloc, format.value())?)
}

/// What a date format makes of a text.
fn date_of(alloc: Global, format: DateFormat, text: &str) -> Result<Text, TrFault>
    ensures ok { IfOk result (λ v. Tr format text.now v) }
    ensures err { IsErrOf result transformation.NotInGrammar → (v : List ℕ) → ¬ Tr format text.now v }
{
    tr4_dates::apply(alloc, format, text)
}

/// What a format makes of a text.
pub(crate) fn transformed(alloc: Global, format: Format, text: &str) -> Result<Text, TrFault>
    ensures ok { IfOk result (λ v. Transforms format text.now v) }
    ensures err { IsErrOf result transformation.NotInGrammar → (v : List ℕ) → ¬ Transforms format text.now v }
{
    match format {
        Format::Date(format) => date_of(alloc, format, text),
        Format::Fixed(format) => fixed_of(alloc, format, text),
        Format::Number(format) => number_of(alloc, format, text),
    }
}

/// What the format of this name makes of a text.
pub(crate) fn text_in(alloc: Global, name: Name<'_>, text: &str) -> Result<Text, ItemFault>
    ensures { IfSome (said result) (IsTransformed (named name.entry) text.now) }
{
    let Some(format) = Format::named(name) else {
        return Err(ItemFault::Breach(Rule::V1));
    };
    Ok(transformed(alloc, format, text)?)
}
