//! Items.
ghost use Rattle.std.specs.Prelude.{◌≡◌, ◌<◌, [], true, All, codes, length, map, option_map, unwrap_or, IfOk, IfSome, Some};
ghost use Rattle.ix_base.specs.Asks.{Asks};
ghost use Rattle.ix_base.specs.Chain as chains;
ghost use Rattle.ix_base.specs.Elements.{place_of, placed};
ghost use Rattle.ix_base.specs.LocatedElements.{Located, located, base_in, is_kind};
ghost use Rattle.ix_base.specs.Markup.{plain_along};
ghost use Rattle.ix_base.specs.Readers as reader;
ghost use Rattle.ix_base.specs.Spots.{IsOnOnePage};
ghost use Rattle.ix_base.specs.Trees.{named, tree_of};
ghost use Rattle.ix_base.specs.FactViews as viewed;
ghost use Rattle.ix_base.specs.declared.kind.Kind.TheVariants as kinds;
ghost use Rattle.facts.specs.ChainTexts.{raw_along, text_along};
ghost use Rattle.facts.specs.ItemValue as item_value;
ghost use Rattle.facts.specs.NumberValue as numbers;
ghost use Rattle.facts.specs.Verdicts.{as_plain, rule_said, said};
ghost use Rattle.ix_base.specs.declared.content.Item.{Item as ItemOf};
ghost use Rattle.ix_base.specs.declared.rule.Rule.{Rule as RuleOf};
ghost use Rattle.std.specs.Prelude.{Result as ResultOf};
ghost use Rattle.facts.specs.TextValue.{IsTransformed};

use crate::exact::accuracy_of;
use crate::fault::ItemFault;
use crate::format::text_in;
use crate::fraction::fraction_value;
use crate::number::nested_value;
use escape_text::{markup, plain};
use fact_view::fact_name;
use ix_base::namespaces::XHTML;
use ix_base::{
    Element, Item, Kind, Name, NoMemory, OwnName, Rule, Spot, Text, Value, kind_of, token_at,
};
use scopes::{Bases, name_at};
use std::alloc::Global;
use value_forms::{escapes, is_nil};

/// The plain text of a chain.
fn plain_of(alloc: Global, chain: &[&Spot<'_>]) -> Result<Text, NoMemory>
    ensures { IfOk result (λ t. t ≡ plain_along (map (λ s. located s.now) chain.now)) }
{
    let mut text = Text::of(alloc, "")?;
    plain(chain, &mut text)?;
    Ok(text)
}

/// The markup of a chain within the namespace of xhtml, links resolved.
#[tactic(auto, unfolding(ix_base::specs::Namespaces::xhtml_namespace))]
fn markup_of(alloc: Global, chain: &[&Spot<'_>], bases: &Bases) -> Result<Text, NoMemory>
    requires bases { All (λ s. (place_of s.now).page < length bases.now.pages) chain.now }
    requires pages { All (λ s. IsOnOnePage s.now) chain.now }
    ensures { IfOk result (λ t. t ≡ raw_along (base_in bases.now.pages) true (map (λ s. located s.now) chain.now)) }
{
    let mut text = Text::of(alloc, "")?;
    markup(alloc, chain, bases, XHTML, &mut text)?;
    Ok(text)
}

/// The text of a chain as it stands: as markup where it is to be escaped, or else plain.
fn raw_of(alloc: Global, chain: &[&Spot<'_>], bases: &Bases, escape: bool) -> Result<Text, NoMemory>
    requires bases { All (λ s. (place_of s.now).page < length bases.now.pages) chain.now }
    requires pages { All (λ s. IsOnOnePage s.now) chain.now }
    ensures { IfOk result (λ t. t ≡ raw_along (base_in bases.now.pages) escape (map (λ s. located s.now) chain.now)) }
{
    if escape {
        markup_of(alloc, chain, bases)
    } else {
        plain_of(alloc, chain)
    }
}

/// What the format of this name makes of the plain text of a chain.
fn formatted(alloc: Global, chain: &[&Spot<'_>], name: Name<'_>) -> Result<Text, ItemFault>
    ensures { IfSome (said result) (IsTransformed (named name.entry) (plain_along (map (λ s. located s.now) chain.now))) }
{
    let text = plain_of(alloc, chain)?;
    text_in(alloc, name, text.as_str())
}

/// The value of a nonNumeric.
fn text_value(
    alloc: Global,
    chain: &[&Spot<'_>],
    bases: &Bases,
    escape: bool,
    format: Option<Name<'_>>,
) -> Result<Text, ItemFault>
    requires bases { All (λ s. (place_of s.now).page < length bases.now.pages) chain.now }
    requires pages { All (λ s. IsOnOnePage s.now) chain.now }
    ensures { IfSome (said result) (item_value.IsTextBy (option_map named format.entry)
        (text_along (base_in bases.now.pages) escape (map (λ s. located s.now) chain.now))) }
{
    match format {
        Some(name) => formatted(alloc, chain, name),
        None => Ok(raw_of(alloc, chain, bases, escape)?),
    }
}

/// A text as a value.
fn plain_value(text: Result<Text, ItemFault>) -> Result<Value, ItemFault>
    ensures { said result ≡ option_map as_plain (said text) }
{
    Ok(Value::Plain(text?))
}

/// The value of a nonNumeric that isn't nil.
fn nonnumeric_value(
    alloc: Global,
    e: &Element<'_>,
    chain: &[&Spot<'_>],
    bases: &Bases,
) -> Result<Value, ItemFault>
    requires bases { All (λ s. (place_of s.now).page < length bases.now.pages) chain.now }
    requires pages { All (λ s. IsOnOnePage s.now) chain.now }
    ensures { IfSome (said result) (item_value.IsPlain (item_value.IsTextBy (viewed.view (tree_of e.now)).format
        (text_along (base_in bases.now.pages) (viewed.view (tree_of e.now)).escape (map (λ s. located s.now) chain.now)))) }
{
    let format = name_at(e, "format");
    plain_value(text_value(alloc, chain, bases, escapes(e), format))
}

/// The value of a nonFraction that isn't nil.
fn nonfraction_value(alloc: Global, e: &Element<'_>) -> Result<Value, ItemFault>
    ensures { IfSome (said result) (item_value.IsPlain (numbers.IsNumberValue
        (numbers.number_by (viewed.view (tree_of e.now)) (numbers.number_text (tree_of e.now).children)))) }
{
    plain_value(nested_value(alloc, e))
}

/// The value of an item of this kind that isn't nil.
fn value_as(
    alloc: Global,
    kind: Kind,
    spot: &Spot<'_>,
    chain: &[&Spot<'_>],
    bases: &Bases,
) -> Result<Value, ItemFault>
    requires bases { All (λ s. (place_of s.now).page < length bases.now.pages) chain.now }
    requires pages { All (λ s. IsOnOnePage s.now) chain.now }
    ensures { IfSome (said result) (item_value.IsValueAs kind
        (text_along (base_in bases.now.pages) (viewed.view (placed spot.now).tree).escape (map (λ s. located s.now) chain.now))
        (placed spot.now).tree) }
{
    match kind {
        Kind::NonNumeric => nonnumeric_value(alloc, spot.element, chain, bases),
        Kind::Fraction => fraction_value(alloc, spot.element),
        _ => nonfraction_value(alloc, spot.element),
    }
}

/// The value of an item.
fn value_of(
    alloc: Global,
    spot: &Spot<'_>,
    chain: &[&Spot<'_>],
    bases: &Bases,
) -> Result<Value, ItemFault>
    requires bases { All (λ s. (place_of s.now).page < length bases.now.pages) chain.now }
    requires pages { All (λ s. IsOnOnePage s.now) chain.now }
    ensures { IfSome (said result) (item_value.IsValueOf
        (text_along (base_in bases.now.pages) (viewed.view (placed spot.now).tree).escape (map (λ s. located s.now) chain.now))
        (placed spot.now)) }
{
    if is_nil(spot.element) {
        return Ok(Value::Nil);
    }
    value_as(alloc, kind_of(spot), spot, chain, bases)
}

/// The token of an attribute, owned.
fn own_token(alloc: Global, e: &Element<'_>, local: &str) -> Result<Option<Text>, NoMemory>
    ensures { IfOk result (λ o. o ≡ reader.token_at local.now (tree_of e.now)) }
{
    Text::of_some(alloc, token_at(e, local))
}

/// The id of the context of an item.
fn context_of(alloc: Global, e: &Element<'_>) -> Result<Text, NoMemory>
    ensures { IfOk result (λ t. t ≡ unwrap_or (reader.token_at (codes "contextRef") (tree_of e.now)) []) }
{
    match token_at(e, "contextRef") {
        Some(token) => Text::of(alloc, token),
        None => Text::of(alloc, ""),
    }
}

/// The id of the unit of an item of this kind.
fn unit_of(alloc: Global, kind: Kind, e: &Element<'_>) -> Result<Option<Text>, NoMemory>
    ensures { IfOk result (λ o. o ≡ reader.unit_of kind (tree_of e.now)) }
{
    match kind {
        Kind::NonFraction | Kind::Fraction => own_token(alloc, e, "unitRef"),
        _ => Ok(None),
    }
}

/// The ids of the context and of the unit of an item of this kind.
fn refs_in(alloc: Global, kind: Kind, e: &Element<'_>) -> Result<(Text, Option<Text>), NoMemory>
    ensures { IfOk result (λ refs. (refs.0 ≡ unwrap_or (reader.token_at (codes "contextRef") (tree_of e.now)) [])
        × (refs.1 ≡ reader.unit_of kind (tree_of e.now))) }
{
    let context = context_of(alloc, e)?;
    let unit = unit_of(alloc, kind, e)?;
    Ok((context, unit))
}

/// An item of this kind with a value.
fn item_with(alloc: Global, kind: Kind, e: &Element<'_>, value: Value) -> Result<Item, NoMemory>
    ensures { IfOk result (λ i. i ≡ item_value.item_with kind (tree_of e.now) value) }
{
    let accuracy = accuracy_of(alloc, kind, e)?;
    let id = own_token(alloc, e, "id")?;
    let (context, unit) = refs_in(alloc, kind, e)?;
    let name = OwnName::of(alloc, fact_name(e))?;
    Ok(Item {
        name,
        context,
        unit,
        accuracy,
        id,
        value,
    })
}

/// What an item of this value says. Where the value breaks a rule, the item breaks it.
fn item_by(
    alloc: Global,
    spot: &Spot<'_>,
    value: Result<Value, ItemFault>,
) -> Result<Item, ItemFault>
    ensures { (text : item_value.ItemText) → IfSome (said value) (item_value.IsValueOf text (placed spot.now))
        → IfSome (said result) (item_value.IsItemOf text (placed spot.now)) }
{
    Ok(item_with(alloc, kind_of(spot), spot.element, value?)?)
}

/// What an item of a set says, or the lowest rule of values that it breaks.
///
/// For a nonNumeric the chain is its chain in the set; for another item the chain isn't looked at. An item that is nil
/// breaks no rule of values, whatever its format and its content. Want of memory aside, the fault is `Breach` exactly where
/// the item breaks a rule of values: each says one thing ([`some_item`](crate::laws::some_item),
/// [`one_item`](crate::laws::one_item)).
pub fn item_of(
    alloc: Global,
    spot: &Spot<'_>,
    chain: &[&Spot<'_>],
    bases: &Bases,
) -> Result<Item, ItemFault>
    requires bases { All (λ s. (place_of s.now).page < length bases.now.pages) chain.now }
    requires pages { All (λ s. IsOnOnePage s.now) chain.now }
    ensures { (a : Asks Located)
        → (is_kind kinds.NonNumeric (located spot.now) ≡ true → map (λ s. located s.now) chain.now ≡ chains.chain a (located spot.now))
        → IfSome (said result) (item_value.IsItem (base_in bases.now.pages) a (located spot.now)) }
{
    let value = value_of(alloc, spot, chain, bases);
    item_by(alloc, spot, value)
}

/// The rule that a value was said to break.
fn rule_in(value: Result<Value, ItemFault>) -> Result<Option<Rule>, NoMemory>
    ensures { IfOk result (λ o. option_map rule_said (said value) ≡ Some o) }
{
    match value {
        Ok(_) => Ok(None),
        Err(ItemFault::Breach(rule)) => Ok(Some(rule)),
        Err(ItemFault::NoMemory) => Err(NoMemory),
    }
}

/// The lowest rule of values that an item of a set breaks, if it breaks one: what [`item_of`] says of it. The item isn't made for
/// that.
pub fn value_rule(
    alloc: Global,
    spot: &Spot<'_>,
    chain: &[&Spot<'_>],
    bases: &Bases,
) -> Result<Option<Rule>, NoMemory>
    requires bases { All (λ s. (place_of s.now).page < length bases.now.pages) chain.now }
    requires pages { All (λ s. IsOnOnePage s.now) chain.now }
    ensures { (a : Asks Located)
        → (is_kind kinds.NonNumeric (located spot.now) ≡ true → map (λ s. located s.now) chain.now ≡ chains.chain a (located spot.now))
        → IfOk result (λ o. (r : ResultOf ItemOf RuleOf) × item_value.IsItem (base_in bases.now.pages) a (located spot.now) r
        × (rule_said r ≡ o)) }
{
    rule_in(value_of(alloc, spot, chain, bases))
}
