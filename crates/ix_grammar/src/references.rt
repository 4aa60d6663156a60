//! The attributes of references, and languages.
ghost use Rattle.std.specs.Prelude.{◌≡◌, ◌&&◌, [], List, option_map, true, bytes_eq, codes};
ghost use Rattle.std.specs.Option.{option_map_or, option_or};
ghost use Rattle.ix_base.specs.Attributes.{value_of};
ghost use Rattle.ix_base.specs.ElementRules as grammar;
ghost use Rattle.ix_base.specs.Elements.{path_above};
ghost use Rattle.ix_base.specs.Namespaces.{xlink_namespace, xml_namespace};
ghost use Rattle.ix_base.specs.Readers as reader;
ghost use Rattle.ix_base.specs.Trees.{Tree, tree_of};
ghost use Rattle.ix_grammar.specs.Parts.{is_no_language};

use ix_base::namespaces::XLINK;
use ix_base::{Element, Kind, Spot, attr_of, xml_lang};
use value_forms::{Form, has_form};

/// Whether an attribute is there with a token that isn't empty.
fn has_some(e: &Element, ns: &str, local: &str) -> bool
    ensures { result ≡ grammar.has_some ns.now local.now (tree_of e.now) }
{
    match attr_of(e, ns, local) {
        None => false,
        Some(value) => has_form(Form::Filled, value),
    }
}

/// Whether there is no other type than a simple one.
#[tactic(auto, unfolding(ix_base::specs::Namespaces::xlink_namespace))]
fn is_simple(e: &Element) -> bool
    ensures { result ≡ option_map_or (λ value. bytes_eq value (codes "simple"))
        (value_of (tree_of e.now).head.attrs xlink_namespace (codes "type")) true }
{
    match attr_of(e, XLINK, "type") {
        None => true,
        Some(value) => value == "simple",
    }
}

/// Whether an element refers to an address.
#[tactic(auto, unfolding(ix_base::specs::Namespaces::xlink_namespace))]
fn refers(e: &Element) -> bool
    ensures { result ≡ grammar.refers (tree_of e.now) }
{
    has_some(e, XLINK, "href") && is_simple(e)
}

/// Whether an element refers to an address for a role.
fn refers_for(e: &Element, local: &str) -> bool
    ensures { result ≡ (grammar.refers (tree_of e.now) && grammar.has_some [] local.now (tree_of e.now)) }
{
    refers(e) && has_some(e, "", local)
}

/// Whether a reference lacks its address or its role.
pub fn breaks_reference(kind: Kind, e: &Element) -> bool
    ensures { result ≡ grammar.breaks_reference kind (tree_of e.now) }
{
    match kind {
        Kind::SchemaRef | Kind::LinkbaseRef => !refers(e),
        Kind::RoleRef => !refers_for(e, "roleURI"),
        Kind::ArcroleRef => !refers_for(e, "arcroleURI"),
        _ => false,
    }
}

/// The `xml:lang` of the nearest of an element and those around it that has one.
pub fn lang_along<'a>(spot: Option<&'a Spot<'a>>) -> Option<&'a str>
    ensures { option_map (λ s. s.now) result ≡ reader.lang_along (path_above spot.entry) }
{
    match spot {
        None => None,
        Some(here) => match xml_lang(here.element) {
            Some(lang) => Some(lang),
            None => lang_along(here.up),
        },
    }
}

/// The `xml:lang` of an element, or the one around it where it has none of its own.
pub fn lang_within<'a>(e: &Element<'a>, around: Option<&'a str>) -> Option<&'a str>
    ensures { option_map (λ s. s.now) result
        ≡ option_or (value_of (tree_of e.now).head.attrs xml_namespace (codes "lang")) (option_map (λ s. s.now) around.entry) }
{
    match xml_lang(e) {
        Some(lang) => Some(lang),
        None => around,
    }
}

/// Whether a language is none, or empty.
fn is_no_language(lang: Option<&str>) -> bool
    ensures { result ≡ is_no_language (option_map (λ s. s.now) lang.entry) }
{
    match lang {
        None => true,
        Some(lang) => !has_form(Form::Filled, lang),
    }
}

/// Whether a footnote is in no language, where this is the `xml:lang` that holds for the element.
pub fn breaks_language(kind: Kind, lang: Option<&str>) -> bool
    ensures { (path : List Tree) → option_map (λ s. s.now) lang.entry ≡ reader.lang_along path
        → result ≡ grammar.breaks_language kind path }
{
    match kind {
        Kind::Footnote => is_no_language(lang),
        _ => false,
    }
}
