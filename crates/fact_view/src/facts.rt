//! Views of facts.
ghost use Rattle.std.specs.Prelude.{◌≡◌, ◌&&◌, option_map, is_some, codes};
ghost use Rattle.ix_base.specs.Elements.{placed};
ghost use Rattle.ix_base.specs.Kinds.{is_fact, ix_kind};
ghost use Rattle.ix_base.specs.Readers as reader;
ghost use Rattle.ix_base.specs.Trees.{tree_of, named};
ghost use Rattle.ix_base.specs.FactViews as fact_views;
ghost use Rattle.fact_view.specs.Model.{seen};

use ix_base::{Element, Name, Spot, attr_of, ix_kind, token_at};
use scopes::name_at;
use value_forms::{escapes, is_nil, scale_of};

/// What the attributes of a fact, of a numerator or of a denominator say, where they break no rule of elements. A
/// numerator and a denominator have the empty name. Without a target it is the default one, whose name is empty; without
/// a scale it is 0. Only a fact is nil. The sign is negative where there is one: no other sign breaks no rule.
#[derive(Clone, Copy)]
pub struct FactView<'a> {
    pub name: Name<'a>,
    pub target: &'a str,
    pub nil: bool,
    pub scale: i32,
    pub negative: bool,
    pub escape: bool,
    pub format: Option<Name<'a>>,
}

/// The name that the attribute `name` gives; without one that can be read the empty one. It takes no memory.
pub fn fact_name<'a>(e: &Element<'a>) -> Name<'a>
    ensures { named result ≡ reader.fact_name (tree_of e.now) }
{
    match name_at(e, "name") {
        Some(name) => name,
        None => Name::of("", "", 0),
    }
}

/// The target of a fact or of an ix:references. It takes no memory.
pub fn target_of<'a>(e: &Element<'a>) -> &'a str
    ensures { result.now ≡ reader.target_of (tree_of e.now) }
{
    match token_at(e, "target") {
        Some(target) => target,
        None => "",
    }
}

/// Whether a sign is there.
fn has_sign(e: &Element) -> bool
    ensures { result ≡ is_some (reader.attr (codes "sign") (tree_of e.now)) }
{
    attr_of(e, "", "sign").is_some()
}

/// The name for which the format stands.
fn format_of<'a>(e: &Element<'a>) -> Option<Name<'a>>
    ensures { option_map named result ≡ reader.name_at (codes "format") (tree_of e.now) }
{
    name_at(e, "format")
}

/// Whether an element is a fact without a value.
fn is_nil_fact(e: &Element) -> bool
    ensures { result ≡ (is_fact (ix_kind (tree_of e.now).head.name) && reader.is_nil (tree_of e.now)) }
{
    ix_kind(&e.name).is_fact() && is_nil(e)
}

/// What the attributes of an element say. It takes no memory.
pub fn view<'a>(spot: &Spot<'a>) -> FactView<'a>
    ensures { seen result ≡ fact_views.view (placed spot.now).tree }
{
    let e = spot.element;
    FactView {
        name: fact_name(e),
        target: target_of(e),
        nil: is_nil_fact(e),
        scale: scale_of(e),
        negative: has_sign(e),
        escape: escapes(e),
        format: format_of(e),
    }
}
