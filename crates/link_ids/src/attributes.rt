//! The attributes by which elements name ids.
ghost use Rattle.std.specs.Prelude.{◌≡◌, flat_map, option_map};
ghost use Rattle.ix_base.specs.Kinds.{kind_of as spec_kind_of};
ghost use Rattle.ix_base.specs.LocatedElements.{Located};
ghost use Rattle.ix_base.specs.Trees.{tree_of};
ghost use Rattle.link_ids.specs.LinkAttributes as link_attributes;
ghost use Rattle.link_ids.specs.Links.{links_of};

use ix_base::{Element, Kind, attr_of, token_at};

/// The attributes that name ids.
#[derive(Clone, Copy, PartialEq, Eq)]
pub enum LinkAttribute {
    ContinuedAt,
    ContextRef,
    UnitRef,
    TupleRef,
    FromRefs,
    ToRefs,
}

/// The attributes by which an element of a kind links: what they name are all of its links.
pub fn attributes_of(kind: Kind) -> &'static [LinkAttribute]
    ensures { (e : Located) → spec_kind_of e.placed ≡ kind → flat_map (λ a. link_attributes.links_in a e) result.now ≡ links_of e }
{
    match kind {
        Kind::NonNumeric => &[
            LinkAttribute::ContinuedAt,
            LinkAttribute::ContextRef,
            LinkAttribute::TupleRef,
        ],
        Kind::Footnote | Kind::Continuation => &[LinkAttribute::ContinuedAt],
        Kind::NonFraction | Kind::Fraction => &[
            LinkAttribute::ContextRef,
            LinkAttribute::UnitRef,
            LinkAttribute::TupleRef,
        ],
        Kind::Tuple => &[LinkAttribute::TupleRef],
        Kind::Relationship => &[LinkAttribute::FromRefs, LinkAttribute::ToRefs],
        _ => &[],
    }
}

/// What an attribute that names one id says.
pub fn single_at<'a>(attribute: LinkAttribute, e: &Element<'a>) -> Option<&'a str>
    ensures { option_map (λ s. s.now) result ≡ link_attributes.single_in attribute (tree_of e.now) }
{
    match attribute {
        LinkAttribute::ContinuedAt => token_at(e, "continuedAt"),
        LinkAttribute::ContextRef => token_at(e, "contextRef"),
        LinkAttribute::UnitRef => token_at(e, "unitRef"),
        LinkAttribute::TupleRef => token_at(e, "tupleRef"),
        LinkAttribute::FromRefs | LinkAttribute::ToRefs => None,
    }
}

/// What an attribute that names a list of ids says.
pub fn list_at<'a>(attribute: LinkAttribute, e: &Element<'a>) -> Option<&'a str>
    ensures { option_map (λ s. s.now) result ≡ link_attributes.list_in attribute (tree_of e.now) }
{
    match attribute {
        LinkAttribute::FromRefs => attr_of(e, "", "fromRefs"),
        LinkAttribute::ToRefs => attr_of(e, "", "toRefs"),
        _ => None,
    }
}
