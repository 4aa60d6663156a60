//! Where elements may stand.
ghost use Rattle.std.specs.Prelude.{◌≡◌, true, false};
ghost use Rattle.std.specs.Option.{option_map_or};
ghost use Rattle.ix_base.specs.ElementRules as grammar;
ghost use Rattle.ix_base.specs.Elements.{path_above};
ghost use Rattle.ix_base.specs.Kinds.{near as spec_near, parent_kind as spec_parent_kind};
ghost use Rattle.ix_grammar.specs.Parts.{is_in_text};

use crate::kinds::near;
use ix_base::{Kind, Spot, ix_kind, parent_kind};

fn may_hold_facts(kind: Kind) -> bool
    ensures { result ≡ grammar.may_hold_facts kind }
{
    matches!(
        kind,
        Kind::Hidden
            | Kind::Tuple
            | Kind::NonNumeric
            | Kind::Continuation
            | Kind::Footnote
            | Kind::Exclude
    )
}

fn may_hold_excludes(kind: Kind) -> bool
    ensures { result ≡ grammar.may_hold_excludes kind }
{
    matches!(
        kind,
        Kind::NonNumeric | Kind::Continuation | Kind::Footnote | Kind::Tuple | Kind::Exclude
    )
}

fn is_under_fraction(nearest: Option<Kind>) -> bool
    ensures { result ≡ option_map_or grammar.is_fraction nearest false }
{
    matches!(nearest, Some(Kind::Fraction))
}

fn is_beside_facts(nearest: Option<Kind>) -> bool
    ensures { result ≡ option_map_or grammar.may_hold_facts nearest true }
{
    match nearest {
        None => true,
        Some(kind) => may_hold_facts(kind),
    }
}

fn may_hold_numbers(kind: Kind) -> bool
    ensures { result ≡ grammar.may_hold_numbers kind }
{
    match kind {
        Kind::NonFraction => true,
        _ => may_hold_facts(kind),
    }
}

fn is_beside_numbers(nearest: Option<Kind>) -> bool
    ensures { result ≡ option_map_or grammar.may_hold_numbers nearest true }
{
    match nearest {
        None => true,
        Some(kind) => may_hold_numbers(kind),
    }
}

fn is_in_excludable(nearest: Option<Kind>) -> bool
    ensures { result ≡ option_map_or grammar.may_hold_excludes nearest true }
{
    match nearest {
        None => true,
        Some(kind) => may_hold_excludes(kind),
    }
}

fn is_header(kind: Kind) -> bool
    ensures { result ≡ grammar.is_header kind }
{
    matches!(kind, Kind::Header)
}

fn is_resources(kind: Kind) -> bool
    ensures { result ≡ grammar.is_resources kind }
{
    matches!(kind, Kind::Resources)
}

/// Whether an element of a kind may stand where what is above it is this. Only where its rule asks for the nearest ix
/// ancestor are the ancestors walked through.
fn may_stand(kind: Kind, up: Option<&Spot>) -> bool
    ensures { result ≡ grammar.may_stand kind (spec_parent_kind (path_above up.entry)) (spec_near (path_above up.entry)) }
{
    match kind {
        Kind::Header => near(up).is_none(),
        Kind::Hidden | Kind::References | Kind::Resources => is_header(parent_kind(up)),
        Kind::Relationship => is_resources(parent_kind(up)),
        Kind::Numerator | Kind::Denominator => is_under_fraction(near(up)),
        Kind::NonNumeric | Kind::Fraction | Kind::Tuple | Kind::Continuation | Kind::Footnote =>
            is_beside_facts(near(up)),
        Kind::NonFraction => is_beside_numbers(near(up)),
        Kind::Exclude => is_in_excludable(near(up)),
        Kind::Other
        | Kind::Unit
        | Kind::Context
        | Kind::ArcroleRef
        | Kind::RoleRef
        | Kind::LinkbaseRef
        | Kind::SchemaRef => true,
    }
}

/// Whether an element of a kind stands where it may not.
pub fn breaks_place(kind: Kind, up: Option<&Spot>) -> bool
    ensures { result ≡ grammar.breaks_place kind (path_above up.entry) }
{
    !may_stand(kind, up)
}

/// Whether an element of this kind is running text.
fn is_running(kind: Kind) -> bool
    ensures { result ≡ grammar.is_running kind }
{
    matches!(kind, Kind::NonNumeric | Kind::Continuation | Kind::Footnote)
}

/// Whether running text is among an element and those around it.
fn is_in_text(up: Option<&Spot>) -> bool
    ensures { result ≡ is_in_text (path_above up.entry) }
{
    match up {
        None => false,
        Some(spot) => {
            if is_running(ix_kind(&spot.element.name)) {
                true
            } else {
                is_in_text(spot.up)
            }
        }
    }
}

/// Whether an exclude stands in no running text.
pub fn breaks_exclude(kind: Kind, up: Option<&Spot>) -> bool
    ensures { result ≡ grammar.breaks_exclude kind (path_above up.entry) }
{
    match kind {
        Kind::Exclude => !is_in_text(up),
        _ => false,
    }
}
