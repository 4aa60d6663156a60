//! The ids of contexts and units that items name.
ghost use Rattle.std.specs.Prelude.{◌≡◌, ◌∷◌, [], filter, option_map, OnOk};
ghost use Rattle.std.specs.List.{cons_option, filter_map};
ghost use Rattle.ix_base.specs.LocatedElements as kinds;
ghost use Rattle.ix_base.specs.LocatedElements.{located};
ghost use Rattle.link_ids.specs.Links.{context_named, unit_named};
ghost use Rattle.id_table.specs.Gathered.{Gathers, texts_of};

use ix_base::{Kind, NoMemory, Spot, is_item, kind_of, push_unlike, token_at};
use std::alloc::Global;

/// The ids of the contexts and of the units that items name.
#[derive(Drop)]
pub struct NamedIds<'a> {
    pub contexts: Vec<&'a str>,
    pub units: Vec<&'a str>,
}

/// The id of the context that an element names.
fn context_id<'a>(spot: &Spot<'a>) -> Option<&'a str>
    ensures { option_map (λ s. s.now) result ≡ context_named (located spot.now) }
{
    token_at(spot.element, "contextRef")
}

/// The id of the unit that an element names.
fn unit_id<'a>(spot: &Spot<'a>) -> Option<&'a str>
    ensures { option_map (λ s. s.now) result ≡ unit_named (located spot.now) }
{
    match kind_of(spot) {
        Kind::NonFraction | Kind::Fraction => token_at(spot.element, "unitRef"),
        _ => None,
    }
}

/// Adds an id, where there is one and it isn't the last.
fn push_id<'a>(ids: &mut Vec<&'a str>, id: Option<&'a str>) -> Result<(), NoMemory>
    ensures { OnOk result (Gathers (texts_of ids.old.items) (texts_of ids.new.items)
        (cons_option (option_map (λ s. s.now) id.entry) [])) }
{
    match id {
        Some(id) => push_unlike(ids, id),
        None => Ok(()),
    }
}

impl<'a> NamedIds<'a> {
    /// No ids. It takes no memory.
    pub fn new(alloc: Global) -> NamedIds<'a>
        ensures contexts { result.contexts.items ≡ [] }
        ensures units { result.units.items ≡ [] }
    {
        NamedIds {
            contexts: Vec::new(alloc),
            units: Vec::new(alloc),
        }
    }

    /// Adds the ids that an element names, where it is an item and they aren't the last ones.
    pub fn add(&mut self, spot: &Spot<'a>) -> Result<(), NoMemory>
        ensures contexts { OnOk result (Gathers (texts_of self.old.contexts.items) (texts_of self.new.contexts.items)
            (filter_map context_named (filter kinds.is_item (located spot.now ∷ [])))) }
        ensures units { OnOk result (Gathers (texts_of self.old.units.items) (texts_of self.new.units.items)
            (filter_map unit_named (filter kinds.is_item (located spot.now ∷ [])))) }
    {
        if !is_item(spot) {
            return Ok(());
        }
        push_id(&mut self.contexts, context_id(spot))?;
        push_id(&mut self.units, unit_id(spot))
    }
}
