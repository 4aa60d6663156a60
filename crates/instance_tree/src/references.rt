//! References to schemas, linkbases, roles and arcroles.
ghost use Rattle.std.specs.Prelude.{◌≡◌, IfOk};
ghost use Rattle.ix_base.specs.Trees.{tree_of};
ghost use Rattle.instance_out.specs.Denotation as denotation;

use crate::children::Reader;
use crate::links::{is_typed, xlink_of};
use ix_base::{Element, Linkbase, NoMemory, RoleRef, Text, attr_of};
use std::alloc::Global;

/// The arcrole of a reference to a linkbase.
const LINKBASE: &str = "http://www.w3.org/1999/xlink/properties/linkbase";

/// The reader of references to schemas.
#[derive(Clone, Copy)]
pub(super) struct SchemaReader;

/// The reader of references to linkbases.
#[derive(Clone, Copy)]
pub(super) struct LinkbaseReader;

/// The reader of references to roles or arcroles, whose URI stands in the attribute of this name.
#[derive(Clone, Copy)]
pub(super) struct RoleReader<'a> {
    pub name: &'a str,
}

/// The address of a schema.
#[tactic(auto, unfolding(instance_out::specs::Denotation::schema_in))]
fn schema_of(alloc: Global, e: &Element<'_>) -> Result<Option<Text>, NoMemory>
    ensures { IfOk result (λ o. o ≡ denotation.schema_in (tree_of e.now)) }
{
    if !is_typed(e, "simple") {
        return Ok(None);
    }
    Text::of_some(alloc, xlink_of(e, "href"))
}

/// A reference to a linkbase.
#[tactic(auto, unfolding(instance_out::specs::Denotation::linkbase_in))]
fn linkbase_of(alloc: Global, e: &Element<'_>) -> Result<Option<Linkbase>, NoMemory>
    ensures { IfOk result (λ o. o ≡ denotation.linkbase_in (tree_of e.now)) }
{
    if !is_typed(e, "simple") {
        return Ok(None);
    }
    let Some(href) = xlink_of(e, "href") else {
        return Ok(None);
    };
    let Some(arcrole) = xlink_of(e, "arcrole") else {
        return Ok(None);
    };
    if arcrole != LINKBASE {
        return Ok(None);
    }
    Ok(Some(Linkbase {
        href: Text::of(alloc, href)?,
        role: Text::of_some(alloc, xlink_of(e, "role"))?,
    }))
}

/// A reference to a role or an arcrole, whose URI stands in the attribute of this name.
#[tactic(auto, unfolding(instance_out::specs::Denotation::reference_in))]
fn reference_of(alloc: Global, name: &str, e: &Element<'_>) -> Result<Option<RoleRef>, NoMemory>
    ensures { IfOk result (λ o. o ≡ denotation.reference_in name.now (tree_of e.now)) }
{
    if !is_typed(e, "simple") {
        return Ok(None);
    }
    let Some(uri) = attr_of(e, "", name) else {
        return Ok(None);
    };
    let Some(href) = xlink_of(e, "href") else {
        return Ok(None);
    };
    Ok(Some(RoleRef {
        uri: Text::of(alloc, uri)?,
        href: Text::of(alloc, href)?,
    }))
}

impl Reader for SchemaReader {
    type Part = Text;

    ghost use Rattle.instance_out.specs.Denotation.{schema_in};

    ghost reads = { λ _. schema_in };

    fn read(&self, alloc: Global, e: &Element<'_>) -> Result<Option<Text>, NoMemory> {
        schema_of(alloc, e)
    }
}

impl Reader for LinkbaseReader {
    type Part = Linkbase;

    ghost use Rattle.instance_out.specs.Denotation.{linkbase_in};

    ghost reads = { λ _. linkbase_in };

    fn read(&self, alloc: Global, e: &Element<'_>) -> Result<Option<Linkbase>, NoMemory> {
        linkbase_of(alloc, e)
    }
}

impl Reader for RoleReader<'_> {
    type Part = RoleRef;

    ghost use Rattle.instance_out.specs.Denotation.{reference_in};

    ghost reads = { λ r. reference_in r.name.now };

    fn read(&self, alloc: Global, e: &Element<'_>) -> Result<Option<RoleRef>, NoMemory> {
        reference_of(alloc, self.name, e)
    }
}
