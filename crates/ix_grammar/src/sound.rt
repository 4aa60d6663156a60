//! Elements that are seen to break no rule: foreign ones, and facts, by one look at each of their attributes.
ghost use Rattle.std.specs.Prelude.{◌≡◌, [], true, false, bytes_eq, if◌then◌else◌};
ghost use Rattle.ix_base.specs.declared.place.Place.{Place as AtPlace};
ghost use Rattle.ix_base.specs.ElementRules as grammar;
ghost use Rattle.ix_base.specs.ElementRules.{found};
ghost use Rattle.ix_base.specs.Elements.{placed};
ghost use Rattle.ix_base.specs.Forms.{is_empty, is_qname_token};
ghost use Rattle.ix_base.specs.Kinds.{kind_of as spec_kind_of};
ghost use Rattle.ix_base.specs.Namespaces.{ix_namespace};
ghost use Rattle.ix_base.specs.Trees.{Tree, tree_of, valued, bindings_in};
ghost use Rattle.ix_grammar.specs.declared.sound.Seen.TheVariants as Seen;
ghost use Rattle.ix_grammar.specs.SoundFacts as sound;

use crate::given::is_plain;
use crate::places::breaks_place;
use crate::spaces::is_reserved;
use holding::has_no_elements;
use ix_base::{Attr, Element, Kind, Scope, Spot, is_ix, token};
use scopes::name_of;
use value_forms::{Form, has_form, is_nil};

/// Whether a value stands for a name in this scope.
fn is_bound(scope: Scope, value: &str) -> bool
    ensures qname { result ≡ true → is_qname_token value.now ≡ true }
    ensures bound { result ≡ true → sound.is_unbound_in (bindings_in scope.entry) value.now ≡ false }
{
    name_of(scope, token(value)).is_some()
}

/// Whether a value stands for a name that a fact may have.
fn is_fact_name(scope: Scope, value: &str) -> bool
    ensures qname { result ≡ true → is_qname_token value.now ≡ true }
    ensures bound { result ≡ true → sound.is_unbound_in (bindings_in scope.entry) value.now ≡ false }
    ensures free { result ≡ true → sound.is_reserved_in (bindings_in scope.entry) value.now ≡ false }
{
    match name_of(scope, token(value)) {
        None => false,
        Some(name) => !is_reserved(&name),
    }
}

/// What a look at an attribute of a fact tells: which of those that facts need it is, if it is as it has to be.
#[derive(Clone, Copy)]
enum Seen {
    /// It may not be there, isn't as it has to be, or is one that few facts have.
    Odd,
    Name,
    Context,
    Unit,
    Decimals,
    Other,
}

/// What a look tells where the value is as it has to be, or else that it is odd.
fn seen_if(is_fit: bool, seen: Seen) -> Seen
    ensures { result ≡ (if is_fit then seen else Seen.Odd) }
{
    if is_fit { seen } else { Seen::Odd }
}

/// What a look at an attribute of a nonFraction, without a namespace, tells.
#[tactic(auto, unfolding(crate::specs::NeededForms::form_rows, ix_base::specs::ElementRules::common))]
fn seen_of_number(scope: Scope, attr: &Attr) -> Seen
    requires { is_empty (valued attr.now).name.ns ≡ true }
    ensures fit { sound.tells_odd result ≡ false
        → sound.is_odd Kind.NonFraction (bindings_in scope.entry) (valued attr.now) ≡ false }
    ensures seen { sound.IsSeen (valued attr.now) result }
{
    let value = attr.value;
    match attr.name.local {
        "contextRef" => seen_if(has_form(Form::Name, value), Seen::Context),
        "unitRef" => seen_if(has_form(Form::Name, value), Seen::Unit),
        "decimals" => seen_if(has_form(Form::Decimals, value), Seen::Decimals),
        "name" => seen_if(is_fact_name(scope, value), Seen::Name),
        "format" => seen_if(is_bound(scope, value), Seen::Other),
        "id" | "target" | "tupleRef" => seen_if(has_form(Form::Name, value), Seen::Other),
        "scale" => seen_if(has_form(Form::Scale, value), Seen::Other),
        "sign" => seen_if(has_form(Form::Sign, value), Seen::Other),
        "order" => seen_if(has_form(Form::Order, value), Seen::Other),
        "class" | "style" | "title" | "lang" => Seen::Other,
        _ => Seen::Odd,
    }
}

/// The same of an attribute of a nonNumeric.
#[tactic(auto, unfolding(crate::specs::NeededForms::form_rows, ix_base::specs::ElementRules::common))]
fn seen_of_text(scope: Scope, attr: &Attr) -> Seen
    requires { is_empty (valued attr.now).name.ns ≡ true }
    ensures fit { sound.tells_odd result ≡ false
        → sound.is_odd Kind.NonNumeric (bindings_in scope.entry) (valued attr.now) ≡ false }
    ensures seen { sound.IsSeen (valued attr.now) result }
{
    let value = attr.value;
    match attr.name.local {
        "contextRef" => seen_if(has_form(Form::Name, value), Seen::Context),
        "name" => seen_if(is_fact_name(scope, value), Seen::Name),
        "format" => seen_if(is_bound(scope, value), Seen::Other),
        "id" | "continuedAt" | "target" | "tupleRef" => seen_if(
            has_form(Form::Name, value),
            Seen::Other,
        ),
        "escape" => seen_if(has_form(Form::Boolean, value), Seen::Other),
        "order" => seen_if(has_form(Form::Order, value), Seen::Other),
        "class" | "style" | "title" | "lang" => Seen::Other,
        _ => Seen::Odd,
    }
}

/// What a look at an attribute of a fact of this kind tells.
fn seen_of(kind: Kind, scope: Scope, attr: &Attr) -> Seen
    ensures fit { sound.tells_odd result ≡ false → sound.is_odd kind (bindings_in scope.entry) (valued attr.now) ≡ false }
    ensures seen { sound.IsSeen (valued attr.now) result }
{
    if !is_plain(attr) {
        let is_fit = attr.name.local != "nil" || has_form(Form::Boolean, attr.value);
        return seen_if(is_fit, Seen::Other);
    }
    match kind {
        Kind::NonFraction => seen_of_number(scope, attr),
        Kind::NonNumeric => seen_of_text(scope, attr),
        _ => Seen::Odd,
    }
}

/// Which of the attributes that facts need were seen.
#[derive(Clone, Copy)]
struct Given {
    name: bool,
    context: bool,
    unit: bool,
    decimals: bool,
}

impl Given {
    /// None.
    fn none() -> Given
        ensures { (t : Tree) → sound.AreThere t result }
    {
        Given {
            name: false,
            context: false,
            unit: false,
            decimals: false,
        }
    }

    /// These, and what a look at one more attribute tells.
    fn with(self, seen: Seen) -> Given
        ensures { (t : Tree) → sound.AreThere t self → sound.IsThere t seen → sound.AreThere t result }
    {
        match seen {
            Seen::Name => Given { name: true, ..self },
            Seen::Context => Given {
                context: true,
                ..self
            },
            Seen::Unit => Given { unit: true, ..self },
            Seen::Decimals => Given {
                decimals: true,
                ..self
            },
            Seen::Odd | Seen::Other => self,
        }
    }

    /// Whether they are all that a fact of this kind needs, beside the accuracy.
    fn suffices(self, kind: Kind) -> bool
        ensures { (t : Tree) → sound.AreThere t self → result ≡ true → grammar.breaks_required kind t ≡ false }
    {
        match kind {
            Kind::NonFraction => self.name && self.context && self.unit,
            Kind::NonNumeric => self.name && self.context,
            _ => false,
        }
    }

    /// Whether the accuracy of a fact of this kind is among them, or isn't needed.
    fn has_accuracy(self, kind: Kind, e: &Element) -> bool
        ensures { sound.AreThere (tree_of e.now) self → result ≡ true → grammar.lacks_accuracy kind (tree_of e.now) ≡ false }
    {
        match kind {
            Kind::NonFraction => self.decimals || is_nil(e),
            _ => true,
        }
    }
}

/// Whether a look tells that an attribute is odd.
fn tells_odd(seen: Seen) -> bool
    ensures { result ≡ sound.tells_odd seen }
{
    matches!(seen, Seen::Odd)
}

/// Whether a fact of this kind has all attributes that it needs, and no odd one.
fn are_sound(kind: Kind, e: &Element) -> bool
    ensures odd { result ≡ true → sound.has_odd kind (tree_of e.now) ≡ false }
    ensures required { result ≡ true → grammar.breaks_required kind (tree_of e.now) ≡ false }
    ensures accuracy { result ≡ true → grammar.lacks_accuracy kind (tree_of e.now) ≡ false }
{
    let mut given = Given::none();
    for attr in e.attrs.written {
        let seen = seen_of(kind, e.scope, attr);
        if tells_odd(seen) {
            return false;
        }
        given = given.with(seen);
    }
    given.suffices(kind) && given.has_accuracy(kind, e)
}

/// Whether a nonFraction, which holds no elements, is seen to break no rule.
fn is_sound_number(spot: &Spot<'_>) -> bool
    requires { Kind.NonFraction ≡ spec_kind_of (placed spot.now) }
    ensures { result ≡ true → (place : AtPlace) → found place (placed spot.now) ≡ [] }
{
    if breaks_place(Kind::NonFraction, spot.up) {
        return false;
    }
    if !has_no_elements(spot.element.children) {
        return false;
    }
    are_sound(Kind::NonFraction, spot.element)
}

/// Whether a nonNumeric is.
fn is_sound_text(spot: &Spot<'_>) -> bool
    requires { Kind.NonNumeric ≡ spec_kind_of (placed spot.now) }
    ensures { result ≡ true → (place : AtPlace) → found place (placed spot.now) ≡ [] }
{
    if breaks_place(Kind::NonNumeric, spot.up) {
        return false;
    }
    are_sound(Kind::NonNumeric, spot.element)
}

/// Whether the element of a spot is of the namespace of inline elements.
fn is_inline_named(spot: &Spot<'_>) -> bool
    ensures { result ≡ bytes_eq (placed spot.now).tree.head.name.ns ix_namespace }
{
    is_ix(&spot.element.name)
}

/// Whether an element that isn't marked is of another namespace than inline elements. It breaks no rule.
fn is_foreign(spot: &Spot<'_>) -> bool
    requires { Kind.Other ≡ spec_kind_of (placed spot.now) }
    ensures { result ≡ true → (place : AtPlace) → found place (placed spot.now) ≡ [] }
{
    !is_inline_named(spot)
}

/// Whether an element is seen to break no rule, as are those that aren't marked, and most facts.
pub(crate) fn is_sound(kind: Kind, spot: &Spot<'_>) -> bool
    requires { kind ≡ spec_kind_of (placed spot.now) }
    ensures { result ≡ true → (place : AtPlace) → found place (placed spot.now) ≡ [] }
{
    match kind {
        Kind::Other => is_foreign(spot),
        Kind::NonFraction => is_sound_number(spot),
        Kind::NonNumeric => is_sound_text(spot),
        _ => false,
    }
}
