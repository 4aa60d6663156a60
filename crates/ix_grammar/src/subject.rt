//! An element that is looked at.
ghost use Rattle.std.specs.Prelude.{◌≡◌};
ghost use Rattle.ix_base.specs.Attributes.{valued};
ghost use Rattle.ix_base.specs.Elements.{placed};
ghost use Rattle.ix_base.specs.Trees.{tree_of};
ghost use Rattle.ix_grammar.specs.NeededForms as forms;

use crate::given::is_plain;
use crate::kinds::is_inline;
use ix_base::{Attr, Element, Kind, Place, Spot};
use value_forms::{Form, has_form};

/// An element that is looked at: its kind, the `xml:lang` that holds for it, and where its breaches are reported.
#[derive(Clone, Copy)]
pub(crate) struct Subject<'a> {
    pub(crate) spot: &'a Spot<'a>,
    pub(crate) kind: Kind,
    pub(crate) lang: Option<&'a str>,
    pub(crate) place: Place,
    /// Whether the element is an inline one and a value among its attributes isn't of the form that it needs. Hardly an element
    /// is such, so the rules on forms, which look for each attribute by its name, are asked for those alone.
    pub(crate) is_ill: bool,
    ghost ill: { is_ill ≡ forms.is_ill kind (placed spot.now).tree },
}

/// The form that the value of an attribute without a namespace needs, by its name.
#[tactic(auto, unfolding(crate::specs::NeededForms::form_rows))]
fn needed_form(local: &str) -> Option<Form>
    ensures { result ≡ forms.needed_form local.now }
{
    match local {
        "id" => Some(Form::Name),
        "name" => Some(Form::Qname),
        "contextRef" => Some(Form::Name),
        "unitRef" => Some(Form::Name),
        "format" => Some(Form::Qname),
        "decimals" => Some(Form::Decimals),
        "scale" => Some(Form::Scale),
        "sign" => Some(Form::Sign),
        "escape" => Some(Form::Boolean),
        "order" => Some(Form::Order),
        "target" => Some(Form::Name),
        "continuedAt" => Some(Form::Name),
        "precision" => Some(Form::Precision),
        "tupleID" => Some(Form::Name),
        "tupleRef" => Some(Form::Name),
        "fromRefs" => Some(Form::Names),
        "toRefs" => Some(Form::Names),
        "footnoteRole" => Some(Form::Filled),
        "arcrole" => Some(Form::Filled),
        "linkRole" => Some(Form::Filled),
        _ => None,
    }
}

/// Whether an attribute isn't of the form that its name needs.
fn is_ill_formed(attr: &Attr) -> bool
    ensures { result ≡ forms.is_ill_formed (valued attr.now) }
{
    match needed_form(attr.name.local) {
        Some(form) => is_plain(attr) && !has_form(form, attr.value),
        None => false,
    }
}

/// Whether one of the attributes of an element isn't.
fn has_ill_formed(e: &Element) -> bool
    ensures { result ≡ forms.has_ill_formed (tree_of e.now) }
{
    for attr in e.attrs.written {
        if is_ill_formed(attr) {
            return true;
        }
    }
    false
}

/// Whether the element of a spot, which is of this kind, is an inline one with such an attribute.
pub(crate) fn is_ill(kind: Kind, spot: &Spot<'_>) -> bool
    ensures { result ≡ forms.is_ill kind (placed spot.now).tree }
{
    is_inline(kind) && has_ill_formed(spot.element)
}
