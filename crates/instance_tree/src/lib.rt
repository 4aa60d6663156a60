//! What the tree of an instance denotes.
//!
//! One function stands for each definition, and says that it equals it.
#![tactic(auto)]

ghost use Rattle.std.specs.Prelude.{◌≡◌, option_map, IfOk};
ghost use Rattle.ix_base.specs.PlainContents.{said_of};
ghost use Rattle.ix_base.specs.Trees.{named, nodes_of, tree_of};
ghost use Rattle.instance_out.specs.Denotation as denotation;

use children::{read_links, read_parts};
use facts::facts_among;
use holding::is_of;
use ix_base::namespaces::{LINK, XBRLI};
use ix_base::{Content, Element, Name, NoMemory, Node};
use notes::LinkReader;
use parts::{ContextReader, UnitReader};
use references::{LinkbaseReader, RoleReader, SchemaReader};
use std::alloc::Global;

mod children;
mod ends;
mod facts;
mod items;
mod links;
mod notes;
mod parts;
mod references;

/// Whether an element of this name may stand in an instance's root.
#[tactic(auto, unfolding(ix_base::specs::Namespaces::xbrli_namespace, ix_base::specs::Namespaces::link_namespace))]
fn may_stand(name: &Name<'_>) -> bool
    ensures { result ≡ denotation.may_stand (named name.now) }
{
    if name.ns == LINK {
        matches!(
            name.local,
            "schemaRef" | "linkbaseRef" | "roleRef" | "arcroleRef" | "footnoteLink"
        )
    } else if name.ns == XBRLI {
        matches!(name.local, "context" | "unit")
    } else {
        true
    }
}

/// Whether each element among some nodes may stand in an instance's root.
fn are_parts(nodes: &[Node<'_>]) -> bool
    ensures { result ≡ denotation.are_parts (nodes_of nodes.now) }
{
    for node in nodes {
        if let Node::Elem(e) = node {
            if !may_stand(e.name) {
                return false;
            }
        }
    }
    true
}

/// What the children of a root denote, each kind in document order.
#[tactic(auto, unfolding(instance_out::specs::Denotation::parts_in))]
fn parts_in(alloc: Global, nodes: &[Node<'_>]) -> Result<Option<Content>, NoMemory>
    ensures { IfOk result (λ o. option_map said_of o ≡ denotation.parts_in (nodes_of nodes.now)) }
{
    let Some(schemas) = read_links(alloc, &SchemaReader, nodes, "schemaRef")? else {
        return Ok(None);
    };
    let Some(linkbases) = read_links(alloc, &LinkbaseReader, nodes, "linkbaseRef")? else {
        return Ok(None);
    };
    let role = RoleReader { name: "roleURI" };
    let Some(roles) = read_links(alloc, &role, nodes, "roleRef")? else {
        return Ok(None);
    };
    let arcrole = RoleReader { name: "arcroleURI" };
    let Some(arcroles) = read_links(alloc, &arcrole, nodes, "arcroleRef")? else {
        return Ok(None);
    };
    let Some(contexts) = read_parts(alloc, &ContextReader, nodes, "context")? else {
        return Ok(None);
    };
    let Some(units) = read_parts(alloc, &UnitReader, nodes, "unit")? else {
        return Ok(None);
    };
    let Some(facts) = facts_among(alloc, nodes)? else {
        return Ok(None);
    };
    let Some(notes) = read_links(alloc, &LinkReader, nodes, "footnoteLink")? else {
        return Ok(None);
    };
    if !are_parts(nodes) {
        return Ok(None);
    }
    Ok(Some(Content {
        notes,
        facts,
        units,
        contexts,
        arcroles,
        roles,
        linkbases,
        schemas,
    }))
}

/// The content that the tree of an instance denotes (XBRL 2.1, section 4), if it denotes one.
///
/// It denotes one where the root is an `xbrli:xbrl`, in which nothing stands but references, contexts, units, facts and footnote
/// links, and each of these denotes what a content can hold. Each kind stands in document order. Whether the content is proper
/// isn't asked. Want of memory is the only error.
///
/// The children of the root are gone over once for each kind of part, so the work grows with the tree; the ids at the labels of
/// a footnote link are hashed.
#[tactic(auto, unfolding(instance_out::specs::Denotation::content_in, ix_base::specs::Namespaces::xbrli_namespace))]
pub fn denoted(alloc: Global, root: &Element<'_>) -> Result<Option<Content>, NoMemory>
    ensures { IfOk result (λ o. option_map said_of o ≡ denotation.content_in (tree_of root.now)) }
{
    if !is_of(&root.name, XBRLI, "xbrl") {
        return Ok(None);
    }
    parts_in(alloc, root.children)
}
