//! The rules of an element.
ghost use Rattle.std.specs.Prelude.{◌≡◌, ◌++◌, OnOk, OnErr, IfOk, option_map};
ghost use Rattle.ix_base.specs.ElementRules as grammar;
ghost use Rattle.ix_base.specs.ElementRules.{found};
ghost use Rattle.ix_base.specs.Elements.{placed, path_of, place_of};
ghost use Rattle.ix_base.specs.Kinds.{kind_of as spec_kind_of};
ghost use Rattle.ix_base.specs.Readers.{lang_along as spec_lang_along};
ghost use Rattle.ix_base.specs.Fronts.{AppendsFront};
ghost use Rattle.ix_grammar.specs.Additions.{found_as};

use crate::attributes::{
    breaks_accuracy, breaks_booleans, breaks_names, breaks_order, breaks_roles, breaks_scale,
    breaks_sign,
};
use crate::children::breaks_children;
use crate::contents::{breaks_fraction, breaks_part};
use crate::given::{breaks_allowed, breaks_required, breaks_unknown};
use crate::nested::{breaks_nested, breaks_number};
use crate::parts::{breaks_context, breaks_unit};
use crate::places::{breaks_exclude, breaks_place};
use crate::references::{breaks_language, breaks_reference, lang_along};
use crate::sound::is_sound;
use crate::spaces::breaks_spaces;
use crate::subject::{Subject, is_ill};
use ix_base::{Breaches, NoMemory, Place, Rule, Spot, kind_of};
use std::alloc::Global;

/// The rules of elements, in the order of their table.
fn element_rules() -> &'static [Rule]
    ensures { result.now ≡ grammar.element_rules }
{
    &[
        Rule::N1,
        Rule::N2,
        Rule::N3,
        Rule::N4,
        Rule::N5,
        Rule::N6,
        Rule::N7,
        Rule::N8,
        Rule::N9,
        Rule::N10,
        Rule::N11,
        Rule::N12,
        Rule::N13,
        Rule::N14,
        Rule::N15,
        Rule::N16,
        Rule::N17,
        Rule::N18,
        Rule::N19,
        Rule::N20,
        Rule::N21,
        Rule::N22,
    ]
}

/// Whether an element breaks a rule of elements. It breaks no other rule.
fn breaks(alloc: Global, rule: Rule, of: &Subject<'_>) -> Result<bool, NoMemory>
    requires { option_map (λ s. s.now) of.now.lang ≡ spec_lang_along (path_of (placed of.now.spot.now)) }
    ensures { IfOk result (λ b. b ≡ grammar.breaks_as of.now.kind (placed of.now.spot.now) rule) }
{
    let kind = of.kind;
    let e = of.spot.element;
    match rule {
        Rule::N1 => Ok(breaks_unknown(kind, e)),
        Rule::N2 => Ok(breaks_required(kind, e)),
        Rule::N3 => Ok(breaks_allowed(kind, e)),
        Rule::N4 => Ok(breaks_names(of)),
        Rule::N5 => Ok(breaks_spaces(kind, e)),
        Rule::N6 => Ok(breaks_booleans(of)),
        Rule::N7 => Ok(breaks_scale(of)),
        Rule::N8 => Ok(breaks_sign(of)),
        Rule::N9 => Ok(breaks_accuracy(of)),
        Rule::N10 => Ok(breaks_order(of)),
        Rule::N11 => Ok(breaks_roles(of)),
        Rule::N12 => Ok(breaks_place(kind, of.spot.up)),
        Rule::N13 => Ok(breaks_children(kind, e)),
        Rule::N14 => Ok(breaks_fraction(kind, e)),
        Rule::N15 => Ok(breaks_number(kind, e)),
        Rule::N16 => Ok(breaks_nested(kind, e)),
        Rule::N17 => Ok(breaks_part(kind, e)),
        Rule::N18 => Ok(breaks_language(kind, of.lang)),
        Rule::N19 => Ok(breaks_reference(kind, e)),
        Rule::N20 => breaks_context(alloc, kind, e),
        Rule::N21 => breaks_unit(alloc, kind, e),
        Rule::N22 => Ok(breaks_exclude(kind, of.spot.up)),
        _ => Ok(false),
    }
}

/// Adds exactly those of some rules that an element breaks.
fn check_some(
    alloc: Global,
    rules: &[Rule],
    of: &Subject<'_>,
    breaches: &mut Breaches,
) -> Result<(), NoMemory>
    requires { option_map (λ s. s.now) of.now.lang ≡ spec_lang_along (path_of (placed of.now.spot.now)) }
    ensures ok { OnOk result (breaches.new ≡ breaches.old ++ found_as rules.now of.now.kind of.now.place (placed of.now.spot.now)) }
    ensures err { OnErr result (AppendsFront
        (found_as rules.now of.now.kind of.now.place (placed of.now.spot.now)) breaches.old breaches.new) }
{
    for rule in rules {
        let is_broken = breaks(alloc, *rule, of)?;
        breaches.add_if(of.place, *rule, is_broken)?;
    }
    Ok(())
}

/// Adds exactly the rules of elements that an element breaks.
#[tactic(auto, unfolding(ix_base::specs::ElementRules::found))]
fn check_subject(alloc: Global, of: &Subject<'_>, breaches: &mut Breaches) -> Result<(), NoMemory>
    requires lang { option_map (λ s. s.now) of.now.lang ≡ spec_lang_along (path_of (placed of.now.spot.now)) }
    requires kind { of.now.kind ≡ spec_kind_of (placed of.now.spot.now) }
    ensures ok { OnOk result (breaches.new ≡ breaches.old ++ found of.now.place (placed of.now.spot.now)) }
    ensures err { OnErr result (AppendsFront (found of.now.place (placed of.now.spot.now)) breaches.old breaches.new) }
{
    check_some(alloc, element_rules(), of, breaches)
}

/// Adds exactly the rules of elements that an element breaks, where this is the `xml:lang` that holds for it.
pub(crate) fn check_spot(
    alloc: Global,
    spot: &Spot<'_>,
    lang: Option<&str>,
    place: Place,
    breaches: &mut Breaches,
) -> Result<(), NoMemory>
    requires { option_map (λ s. s.now) lang ≡ spec_lang_along (path_of (placed spot.now)) }
    ensures ok { OnOk result (breaches.new ≡ breaches.old ++ found place (placed spot.now)) }
    ensures err { OnErr result (AppendsFront (found place (placed spot.now)) breaches.old breaches.new) }
{
    let kind = kind_of(spot);
    if is_sound(kind, spot) {
        return Ok(());
    }
    let of = Subject {
        spot,
        kind,
        lang,
        place,
        is_ill: is_ill(kind, spot),
    };
    check_subject(alloc, &of, breaches)
}

/// Adds exactly the rules of elements that an element breaks, in the order of their table. After a refusal a front of
/// them may have been added.
///
/// The language of the element is looked for in the attributes of all its ancestors, so for the elements of a whole
/// page take [`check_page`](crate::check_page).
pub fn check(alloc: Global, spot: &Spot<'_>, breaches: &mut Breaches) -> Result<(), NoMemory>
    ensures ok { OnOk result (breaches.new ≡ breaches.old ++ found (place_of spot.now) (placed spot.now)) }
    ensures err { OnErr result (AppendsFront (found (place_of spot.now) (placed spot.now)) breaches.old breaches.new) }
{
    check_spot(
        alloc,
        spot,
        lang_along(Some(spot)),
        spot.element.place,
        breaches,
    )
}
