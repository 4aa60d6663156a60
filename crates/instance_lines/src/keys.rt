//! The texts by which the parts of a content are put in order.
ghost use Rattle.instance_lines.specs.Canonical.{arcrole_markup, line, linkbase_markup, role_markup, schema_markup};
ghost use Rattle.instance_lines.specs.Elements.{arc_text};

use crate::note::arc_of;
use crate::reference::{linkbase_line, role_line, schema_line};
use crate::sort::KeyOf;
use ix_base::{Arc, Context, Footnote, Linkbase, NoMemory, RoleRef, Text, Unit};
use std::alloc::Global;

/// By the id.
pub struct ById;

/// By the element that an instance has for it.
pub struct ByElement;

/// By the element that an instance has for a reference to an arcrole.
pub struct ByArcroleElement;

impl KeyOf<Context> for ById {
    ghost key = { λ x. x.id };

    fn key_of(alloc: Global, item: &Context) -> Result<Text, NoMemory> {
        Text::of(alloc, item.id.as_str())
    }
}

impl KeyOf<Unit> for ById {
    ghost key = { λ u. u.id };

    fn key_of(alloc: Global, item: &Unit) -> Result<Text, NoMemory> {
        Text::of(alloc, item.id.as_str())
    }
}

impl KeyOf<Footnote> for ById {
    ghost key = { λ f. f.id };

    fn key_of(alloc: Global, item: &Footnote) -> Result<Text, NoMemory> {
        Text::of(alloc, item.id.as_str())
    }
}

/// The address of a schema.
impl KeyOf<Text> for ByElement {
    ghost key = { λ t. line (schema_markup t) };

    fn key_of(alloc: Global, item: &Text) -> Result<Text, NoMemory> {
        schema_line(alloc, item.as_str())
    }
}

impl KeyOf<Linkbase> for ByElement {
    ghost key = { λ l. line (linkbase_markup l) };

    fn key_of(alloc: Global, item: &Linkbase) -> Result<Text, NoMemory> {
        linkbase_line(alloc, item)
    }
}

/// A reference to a role.
impl KeyOf<RoleRef> for ByElement {
    ghost key = { λ r. line (role_markup r) };

    fn key_of(alloc: Global, item: &RoleRef) -> Result<Text, NoMemory> {
        role_line(alloc, "link:roleRef", "roleURI", item)
    }
}

impl KeyOf<RoleRef> for ByArcroleElement {
    ghost key = { λ r. line (arcrole_markup r) };

    fn key_of(alloc: Global, item: &RoleRef) -> Result<Text, NoMemory> {
        role_line(alloc, "link:arcroleRef", "arcroleURI", item)
    }
}

impl KeyOf<Arc> for ByElement {
    ghost key = { λ a. arc_text a };

    fn key_of(alloc: Global, item: &Arc) -> Result<Text, NoMemory> {
        arc_of(alloc, item)
    }
}
