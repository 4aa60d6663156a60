//! What a content holds, gathered.
ghost use Rattle.std.specs.Prelude.{◌≡◌, ◌++◌, flat_map, IfOk, OnOk};
ghost use Rattle.ix_base.specs.Facts.{before, facts_of, none};
ghost use Rattle.ix_base.specs.PlainContents.{said_of};
ghost use Rattle.proper_texts.specs.Model.{IsHeld};
ghost use Rattle.instance_lines.specs.Canonical.{fact_names};
ghost use Rattle.instance_lines.specs.Gains.{Gains};
ghost use Rattle.instance_lines.specs.Holdings.{fact_ids, items_in};
ghost use Rattle.instance_lines.specs.Lists.{of_option};
ghost use Rattle.instance_lines.specs.Tables.{values_of};

use instance_lines::names_in;
use ix_base::{Arc, Content, Fact, Footnote, Item, NoMemory, NoteLink, OwnName, Text};
use std::alloc::Global;

/// What facts hold, with their members, in their order.
#[derive(Drop)]
struct InFacts<'a> {
    items: Vec<&'a Item>,
    ids: Vec<&'a str>,
    names: Vec<&'a OwnName>,
}

/// What a content holds, each as often as it stands.
pub struct Held<'a> {
    pub items: Vec<&'a Item>,
    /// The ids of items and tuples.
    pub ids: Vec<&'a str>,
    pub fact_names: Vec<&'a OwnName>,
    /// The names in contexts, in units and of facts.
    pub names: Vec<&'a OwnName>,
    pub notes: Vec<&'a Footnote>,
    pub arcs: Vec<&'a Arc>,
}

impl Drop for Held<'_> {
    fn drop(self) {
        let Held {
            items: _,
            ids: _,
            fact_names: _,
            names: _,
            notes: _,
            arcs: _,
        } = self;
    }
}

/// Adds an id, if there is one.
fn add_id<'a>(id: &'a Option<Text>, held: &mut InFacts<'a>) -> Result<(), NoMemory>
    ensures items { OnOk result (held.new.items.items ≡ held.old.items.items) }
    ensures ids { OnOk result (Gains (values_of held.old.ids.items) (values_of held.new.ids.items)
        (λ more. of_option id.now ++ more)) }
    ensures names { OnOk result (held.new.names.items ≡ held.old.names.items) }
{
    if let Some(id) = id {
        held.ids.push(id.as_str())?;
    }
    Ok(())
}

/// Adds what a fact and its members hold.
#[cycle(hold)]
fn add_fact<'a>(fact: &'a Fact, held: &mut InFacts<'a>) -> Result<(), NoMemory>
    ensures items { OnOk result (Gains (values_of held.old.items.items) (values_of held.new.items.items)
        (λ more. items_in (before fact.now none) ++ more)) }
    ensures ids { OnOk result (Gains (values_of held.old.ids.items) (values_of held.new.ids.items)
        (λ more. fact_ids (before fact.now none) ++ more)) }
    ensures names { OnOk result (Gains (values_of held.old.names.items) (values_of held.new.names.items)
        (λ more. fact_names (before fact.now none) ++ more)) }
{
    match fact {
        Fact::Item(item) => {
            held.items.push(item)?;
            held.names.push(&item.name)?;
            add_id(&item.id, held)?;
            Ok(())
        }
        Fact::Tuple(tuple) => {
            held.names.push(&tuple.name)?;
            add_id(&tuple.id, held)?;
            add_facts(tuple.members.as_slice(), held)?;
            Ok(())
        }
    }
}

/// Adds what facts and their members hold.
#[cycle(hold)]
fn add_facts<'a>(facts: &'a [Fact], held: &mut InFacts<'a>) -> Result<(), NoMemory>
    ensures items { OnOk result (Gains (values_of held.old.items.items) (values_of held.new.items.items)
        (λ more. items_in (facts_of facts.now) ++ more)) }
    ensures ids { OnOk result (Gains (values_of held.old.ids.items) (values_of held.new.ids.items)
        (λ more. fact_ids (facts_of facts.now) ++ more)) }
    ensures names { OnOk result (Gains (values_of held.old.names.items) (values_of held.new.names.items)
        (λ more. fact_names (facts_of facts.now) ++ more)) }
{
    for fact in facts {
        add_fact(fact, held)?;
    }
    Ok(())
}

/// What facts and their members hold.
fn in_facts<'a>(alloc: Global, facts: &'a [Fact]) -> Result<InFacts<'a>, NoMemory>
    ensures items { IfOk result (λ h. values_of h.items.items ≡ items_in (facts_of facts.now)) }
    ensures ids { IfOk result (λ h. values_of h.ids.items ≡ fact_ids (facts_of facts.now)) }
    ensures names { IfOk result (λ h. values_of h.names.items ≡ fact_names (facts_of facts.now)) }
{
    let mut held = InFacts {
        items: Vec::new(alloc),
        ids: Vec::new(alloc),
        names: Vec::new(alloc),
    };
    add_facts(facts, &mut held)?;
    Ok(held)
}

/// The footnotes of links.
fn notes_in<'a>(alloc: Global, links: &'a [NoteLink]) -> Result<Vec<&'a Footnote>, NoMemory>
    ensures { IfOk result (λ v. values_of v.items ≡ flat_map (λ l. l.footnotes) links.now) }
{
    let mut notes = Vec::new(alloc);
    for link in links {
        add_each(link.footnotes.as_slice(), &mut notes)?;
    }
    Ok(notes)
}

/// The arcs of links.
fn arcs_in<'a>(alloc: Global, links: &'a [NoteLink]) -> Result<Vec<&'a Arc>, NoMemory>
    ensures { IfOk result (λ v. values_of v.items ≡ flat_map (λ l. l.arcs) links.now) }
{
    let mut arcs = Vec::new(alloc);
    for link in links {
        add_each(link.arcs.as_slice(), &mut arcs)?;
    }
    Ok(arcs)
}

/// Adds each of some things.
fn add_each<'a, T>(things: &'a [T], all: &mut Vec<&'a T>) -> Result<(), NoMemory>
    ensures { OnOk result (values_of all.new.items ≡ values_of all.old.items ++ things.now) }
{
    for thing in things {
        all.push(thing)?;
    }
    Ok(())
}

/// What a content holds.
pub fn held_in(alloc: Global, content: &Content) -> Result<Held<'_>, NoMemory>
    ensures { IfOk result (λ h. IsHeld (said_of content.now) h) }
{
    let InFacts {
        items,
        ids,
        names: fact_names,
    } = in_facts(alloc, content.facts.as_slice())?;
    let names = names_in(alloc, content)?;
    let notes = notes_in(alloc, content.notes.as_slice())?;
    let arcs = arcs_in(alloc, content.notes.as_slice())?;
    Ok(Held {
        items,
        ids,
        fact_names,
        names,
        notes,
        arcs,
    })
}
