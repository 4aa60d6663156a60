//! The footnote links of a target, and the references to the roles that they use.
ghost use Rattle.std.specs.Prelude.{◌≡◌, ◌++◌, ◌∷◌, [], map, IfOk, OnOk};
ghost use Rattle.std.specs.List.{filter_map, flat_map};
ghost use Rattle.ix_base.specs.LocatedElements.{base_in};
ghost use Rattle.ix_base.specs.declared.kind.Kind.TheVariants as kind;
ghost use Rattle.footnotes.specs.FootnoteLinks as footnote_links;
ghost use Rattle.target_contents.specs.Contents as contents;
ghost use Rattle.target_contents.specs.RoleAddresses.{role_seen};
ghost use Rattle.target_contents.specs.Visits.{values_of};

use crate::addresses::Roles;
use crate::linked::LinkedSet;
use footnotes::laws::chains_on_pages;
use ix_base::{Arc, Footnote, List, NoMemory, NoteLink, RoleRef, Text, each_once};
use std::alloc::Global;

/// Adds the roles of footnotes.
fn push_footnote_roles<'n>(notes: &'n [Footnote], uris: &mut Vec<&'n str>) -> Result<(), NoMemory>
    ensures { OnOk result (values_of uris.new.items ≡ values_of uris.old.items ++ map (λ n. n.role) notes.now) }
{
    for note in notes {
        uris.push(note.role.as_str())?;
    }
    Ok(())
}

/// Adds the role of a link, and those of its footnotes.
fn push_roles<'n>(link: &'n NoteLink, uris: &mut Vec<&'n str>) -> Result<(), NoMemory>
    ensures { OnOk result (values_of uris.new.items ≡ values_of uris.old.items ++ contents.roles_in link.now) }
{
    uris.push(link.role.as_str())?;
    push_footnote_roles(link.footnotes.as_slice(), uris)
}

/// The roles that links use, as often as they do.
fn each_role<'n>(alloc: Global, links: &'n [NoteLink]) -> Result<Vec<&'n str>, NoMemory>
    ensures { IfOk result (λ v. values_of v.items ≡ flat_map contents.roles_in links.now) }
{
    let mut uris = Vec::new(alloc);
    for link in links {
        push_roles(link, &mut uris)?;
    }
    Ok(uris)
}

/// Adds the arcroles of arcs.
fn push_arcroles<'n>(arcs: &'n [Arc], uris: &mut Vec<&'n str>) -> Result<(), NoMemory>
    ensures { OnOk result (values_of uris.new.items ≡ values_of uris.old.items ++ map (λ a. a.arcrole) arcs.now) }
{
    for arc in arcs {
        uris.push(arc.arcrole.as_str())?;
    }
    Ok(())
}

/// The arcroles that links use, as often as they do.
fn each_arcrole<'n>(alloc: Global, links: &'n [NoteLink]) -> Result<Vec<&'n str>, NoMemory>
    ensures { IfOk result (λ v. values_of v.items ≡ flat_map contents.arcroles_in links.now) }
{
    let mut uris = Vec::new(alloc);
    for link in links {
        push_arcroles(link.arcs.as_slice(), &mut uris)?;
    }
    Ok(uris)
}

/// Adds the reference for the role with this URI, where there is one.
fn push_reference(
    alloc: Global,
    roles: &Roles<'_>,
    uri: &str,
    references: &mut List<RoleRef>,
) -> Result<(), NoMemory>
    ensures { OnOk result (references.new ≡ references.old ++ filter_map (role_seen roles.now) (uri.now ∷ [])) }
{
    if let Some(seen) = roles.get(uri) {
        references.push(RoleRef {
            uri: Text::of(alloc, uri)?,
            href: Text::of(alloc, seen.address.as_str())?,
        })?;
    }
    Ok(())
}

/// The references for the roles with these URIs.
fn references_for(
    alloc: Global,
    roles: &Roles<'_>,
    uris: &[&str],
) -> Result<List<RoleRef>, NoMemory>
    ensures { IfOk result (λ l. l ≡ filter_map (role_seen roles.now) (values_of uris.now)) }
{
    let mut references = List::new(alloc);
    for uri in uris {
        push_reference(alloc, roles, *uri, &mut references)?;
    }
    Ok(references)
}

/// The footnote links of a target.
pub(crate) fn notes_for(
    alloc: Global,
    set: &LinkedSet<'_, '_, '_>,
    target: &str,
) -> Result<List<NoteLink>, NoMemory>
    ensures { IfOk result (λ l. l ≡ footnote_links.notes (base_in set.now.bases) set.now.elements target.now) }
{
    chains_on_pages();
    let linked = set.linked;
    linked
        .relations
        .notes(alloc, target, &linked.chains, linked.bases)
}

/// The references for the roles that links use.
pub(crate) fn roles_for(
    alloc: Global,
    set: &LinkedSet<'_, '_, '_>,
    links: &[NoteLink],
) -> Result<List<RoleRef>, NoMemory>
    ensures { IfOk result (λ l. l
        ≡ contents.roles_for (base_in set.now.bases) set.now.elements kind.RoleRef (contents.uris_in contents.roles_in links.now)) }
{
    let mut uris = each_role(alloc, links)?;
    each_once(&mut uris);
    references_for(alloc, &set.linked.seen_roles.roles, uris.as_slice())
}

/// The references for the arcroles that links use.
pub(crate) fn arcroles_for(
    alloc: Global,
    set: &LinkedSet<'_, '_, '_>,
    links: &[NoteLink],
) -> Result<List<RoleRef>, NoMemory>
    ensures { IfOk result (λ l.
        l ≡ contents.roles_for (base_in set.now.bases) set.now.elements kind.ArcroleRef (contents.uris_in contents.arcroles_in links.now)) }
{
    let mut uris = each_arcrole(alloc, links)?;
    each_once(&mut uris);
    references_for(alloc, &set.linked.seen_roles.arcroles, uris.as_slice())
}
