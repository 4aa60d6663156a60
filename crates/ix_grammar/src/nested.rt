//! Numbers within numbers.
ghost use Rattle.std.specs.Prelude.{◌≡◌, option_map, false, not, ◌&&◌, bytes_eq, codes};
ghost use Rattle.std.specs.List.{list_any};
ghost use Rattle.std.specs.Option.{option_map_or, option_eq};
ghost use Rattle.ix_base.specs.ElementRules as grammar;
ghost use Rattle.ix_base.specs.ElementContent.{named_in, same_name as same_name_of, element_alone as element_alone_in};
ghost use Rattle.ix_base.specs.Namespaces.{ix_namespace};
ghost use Rattle.ix_base.specs.Readers as reader;
ghost use Rattle.ix_base.specs.Trees.{tree_of, nodes_of, named};
ghost use Rattle.ix_grammar.specs.Measures.{seen, measured, agree as spec_agree, differs_from as spec_differs_from};

use holding::{element_alone, has_no_elements, is_of};
use ix_base::namespaces::IX;
use ix_base::{Element, Kind, Name, Node, token_at};
use scopes::name_at;
use value_forms::{is_nil, scale_of};

/// Whether an element is a nonFraction.
#[tactic(auto, unfolding(ix_base::specs::Namespaces::ix_namespace))]
fn is_number(e: &Element) -> bool
    ensures { result ≡ grammar.is_number (tree_of e.now) }
{
    is_of(&e.name, IX, "nonFraction")
}

/// Whether some nodes are one nonFraction that isn't nil, beside white space.
fn is_sole_number(nodes: &[Node]) -> bool
    ensures { result ≡ option_map_or (λ t. grammar.is_number t && not (reader.is_nil t)) (element_alone_in (nodes_of nodes.now)) false }
{
    match element_alone(nodes) {
        None => false,
        Some(e) => is_number(e) && !is_nil(e),
    }
}

/// Whether there are no elements among some nodes, or they are one nonFraction that isn't nil.
fn holds_number(nodes: &[Node]) -> bool
    ensures { result ≡ grammar.holds_number (nodes_of nodes.now) }
{
    has_no_elements(nodes) || is_sole_number(nodes)
}

/// Whether a number holds what it may not.
pub fn breaks_number(kind: Kind, e: &Element) -> bool
    ensures { result ≡ grammar.breaks_number kind (tree_of e.now) }
{
    match kind {
        Kind::NonFraction => !holds_number(e.children) && !is_nil(e),
        _ => false,
    }
}

/// Whether both are there and the same, or neither is there.
fn same_text(a: Option<&str>, b: Option<&str>) -> bool
    ensures { result ≡ option_eq bytes_eq (option_map (λ t. t.now) a.entry) (option_map (λ t. t.now) b.entry) }
{
    match a {
        None => match b {
            None => true,
            Some(_) => false,
        },
        Some(x) => match b {
            None => false,
            Some(y) => x == y,
        },
    }
}

fn same_name(a: &Name, b: &Name) -> bool
    ensures { result ≡ same_name_of (named a.now) (named b.now) }
{
    a.ns == b.ns && a.local == b.local
}

fn same_names(a: Option<Name>, b: Option<Name>) -> bool
    ensures { result ≡ option_eq same_name_of (option_map named a.entry) (option_map named b.entry) }
{
    match a {
        None => match b {
            None => true,
            Some(_) => false,
        },
        Some(x) => match b {
            None => false,
            Some(y) => same_name(&x, &y),
        },
    }
}

/// What numbers within one another agree in.
#[derive(Clone, Copy)]
struct Measure<'a> {
    unit: Option<&'a str>,
    scale: i32,
    format: Option<Name<'a>>,
}

fn measure_of<'a>(e: &Element<'a>) -> Measure<'a>
    ensures { seen result ≡ measured (tree_of e.now) }
{
    Measure {
        unit: token_at(e, "unitRef"),
        scale: scale_of(e),
        format: name_at(e, "format"),
    }
}

/// Whether two numbers agree in the unit, the scale and the format.
fn agree(a: &Measure, b: &Measure) -> bool
    ensures { result ≡ spec_agree (seen a.now) (seen b.now) }
{
    same_text(a.unit, b.unit) && a.scale == b.scale && same_names(a.format, b.format)
}

/// Whether a number is measured in another way.
fn differs_from(own: &Measure, e: &Element) -> bool
    ensures { result ≡ spec_differs_from (seen own.now) (tree_of e.now) }
{
    !agree(own, &measure_of(e))
}

/// Whether a nonFraction among some nodes is measured in another way.
#[tactic(auto, unfolding(ix_base::specs::Namespaces::ix_namespace))]
fn any_differs(own: &Measure, nodes: &[Node]) -> bool
    ensures { result ≡ list_any (spec_differs_from (seen own.now)) (named_in ix_namespace (codes "nonFraction") (nodes_of nodes.now)) }
{
    for node in nodes {
        let Node::Elem(inner) = node else {
            continue;
        };
        if !is_of(&inner.name, IX, "nonFraction") {
            continue;
        }
        if differs_from(own, inner) {
            return true;
        }
    }
    false
}

/// Whether a nonFraction in a number is measured in another way. What the outer one has is read once, and only where it
/// holds elements.
#[tactic(auto, unfolding(ix_base::specs::Namespaces::ix_namespace))]
fn holds_differing(e: &Element) -> bool
    ensures { result ≡ list_any (spec_differs_from (measured (tree_of e.now)))
        (named_in ix_namespace (codes "nonFraction") (tree_of e.now).children) }
{
    if has_no_elements(e.children) {
        return false;
    }
    any_differs(&measure_of(e), e.children)
}

/// Whether a number within a number is measured in another way.
pub fn breaks_nested(kind: Kind, e: &Element) -> bool
    ensures { result ≡ grammar.breaks_nested kind (tree_of e.now) }
{
    match kind {
        Kind::NonFraction => !is_nil(e) && holds_differing(e),
        _ => false,
    }
}
