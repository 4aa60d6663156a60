//! References to roles and arcroles.
ghost use Rattle.std.specs.Prelude.{◌≡◌, ◌++◌, map, IfOk};
ghost use Rattle.ix_base.specs.PlainContents.{said_of};
ghost use Rattle.proper_texts.specs.Model.{IsHeld};
ghost use Rattle.instance_lines.specs.Holdings.{all_arcs, all_notes};
ghost use Rattle.instance_lines.specs.Lists.{are_apart as are_apart_texts, is_within};
ghost use Rattle.instance_out.specs.Proper as proper;
ghost use Rattle.instance_lines.specs.Tables.{values_of};

use crate::among::are_within;
use crate::gathered::names_of;
use crate::order::are_apart;
use ix_base::{Arc, Content, Footnote, NoMemory, NoteLink, RoleRef};
use proper_texts::Held;
use std::alloc::Global;

/// The roles of footnote links and of footnotes.
fn used_roles<'a>(
    alloc: Global,
    links: &'a [NoteLink],
    notes: &[&'a Footnote],
) -> Result<Vec<&'a str>, NoMemory>
    ensures { IfOk result (λ v. values_of v.items ≡ map (λ l. l.role) links.now ++ map (λ f. f.role) (values_of notes.now)) }
{
    let mut roles = names_of(alloc, links)?;
    for note in notes {
        roles.push(note.role.as_str())?;
    }
    Ok(roles)
}

/// The arcroles of arcs.
fn used_arcroles<'a>(alloc: Global, arcs: &[&'a Arc]) -> Result<Vec<&'a str>, NoMemory>
    ensures { IfOk result (λ v. values_of v.items ≡ map (λ a. a.arcrole) (values_of arcs.now)) }
{
    let mut roles = Vec::new(alloc);
    for arc in arcs {
        roles.push(arc.arcrole.as_str())?;
    }
    Ok(roles)
}

/// Whether the roles of references are used.
fn are_roles_used(alloc: Global, content: &Content, held: &Held) -> Result<bool, NoMemory>
    requires { IsHeld (said_of content.now) held.now }
    ensures { IfOk result (λ b. b ≡ is_within (map (λ r. r.uri) content.now.roles)
        (map (λ l. l.role) content.now.notes ++ map (λ f. f.role) (all_notes (said_of content.now)))) }
{
    let roles = names_of(alloc, content.roles.as_slice())?;
    let used = used_roles(alloc, content.notes.as_slice(), held.notes.as_slice())?;
    Ok(are_within(roles.as_slice(), used))
}

/// Whether the arcroles of references are used.
fn are_arcroles_used(alloc: Global, content: &Content, held: &Held) -> Result<bool, NoMemory>
    requires { IsHeld (said_of content.now) held.now }
    ensures { IfOk result (λ b. b
        ≡ is_within (map (λ r. r.uri) content.now.arcroles) (map (λ a. a.arcrole) (all_arcs (said_of content.now)))) }
{
    let arcroles = names_of(alloc, content.arcroles.as_slice())?;
    let used = used_arcroles(alloc, held.arcs.as_slice())?;
    Ok(are_within(arcroles.as_slice(), used))
}

/// Whether no URI of these references stands twice.
fn stand_apart(alloc: Global, roles: &[RoleRef]) -> Result<bool, NoMemory>
    ensures { IfOk result (λ b. b ≡ are_apart_texts (map (λ r. r.uri) roles.now)) }
{
    let uris = names_of(alloc, roles)?;
    Ok(are_apart(uris))
}

/// Whether role and arcrole references are used, with one address each. The cost of n references, links, footnotes and
/// arcs is that of sorts: n log n comparisons.
#[tactic(auto, using(crate::proofs::ToldLaws::roles_told))]
pub(crate) fn roles_fit(alloc: Global, content: &Content, held: &Held) -> Result<bool, NoMemory>
    requires { IsHeld (said_of content.now) held.now }
    ensures { IfOk result (λ b. b ≡ proper.roles_fit (said_of content.now)) }
{
    if !are_roles_used(alloc, content, held)? {
        return Ok(false);
    }
    if !are_arcroles_used(alloc, content, held)? {
        return Ok(false);
    }
    if !stand_apart(alloc, content.roles.as_slice())? {
        return Ok(false);
    }
    let answer = stand_apart(alloc, content.arcroles.as_slice())?;
    Ok(answer)
}
