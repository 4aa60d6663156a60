//! Reading the elements of a name among some nodes.
ghost use Rattle.std.specs.Prelude.{◌≡◌, Option, IfOk};
ghost use Rattle.ix_base.specs.ElementContent.{named_in};
ghost use Rattle.ix_base.specs.Namespaces.{link_namespace, xbrli_namespace};
ghost use Rattle.ix_base.specs.Steps.{each};
ghost use Rattle.ix_base.specs.Trees.{Tree, tree_of, nodes_of};

use holding::is_of;
use ix_base::namespaces::{LINK, XBRLI};
use ix_base::{Element, List, NoMemory, Node};
use std::alloc::Global;

/// A reader of the elements of one kind.
pub(super) trait Reader {
    /// What an element is read as.
    type Part: Drop;

    /// What an element denotes, if anything.
    ghost reads: { Self → Tree → Option Self.Part };

    /// What an element denotes.
    fn read(&self, alloc: Global, e: &Element<'_>) -> Result<Option<Self::Part>, NoMemory>
        ensures { IfOk result (λ o. o ≡ reads self.now (tree_of e.now)) };
}

/// What the elements of a name among some nodes denote, if each denotes something.
#[tactic(auto, using(xbrl_parts::proofs::EachLaws::each_none))]
fn read_named<R: Reader>(
    alloc: Global,
    reader: &R,
    nodes: &[Node<'_>],
    ns: &str,
    local: &str,
) -> Result<Option<List<R::Part>>, NoMemory>
    ensures { IfOk result (λ o. o ≡ each (R.reads reader.now) (named_in ns.now local.now (nodes_of nodes.now))) }
{
    let mut parts = List::new(alloc);
    for node in nodes {
        let Node::Elem(e) = node else {
            continue;
        };
        if !is_of(&e.name, ns, local) {
            continue;
        }
        let Some(part) = reader.read(alloc, e)? else {
            return Ok(None);
        };
        parts.push(part)?;
    }
    Ok(Some(parts))
}

/// What the elements of linkbases of a name among some nodes denote, if each denotes something.
#[tactic(auto, unfolding(ix_base::specs::Namespaces::link_namespace))]
pub(super) fn read_links<R: Reader>(
    alloc: Global,
    reader: &R,
    nodes: &[Node<'_>],
    local: &str,
) -> Result<Option<List<R::Part>>, NoMemory>
    ensures { IfOk result (λ o. o ≡ each (R.reads reader.now) (named_in link_namespace local.now (nodes_of nodes.now))) }
{
    read_named(alloc, reader, nodes, LINK, local)
}

/// What the elements of instances of a name among some nodes denote, if each denotes something.
#[tactic(auto, unfolding(ix_base::specs::Namespaces::xbrli_namespace))]
pub(super) fn read_parts<R: Reader>(
    alloc: Global,
    reader: &R,
    nodes: &[Node<'_>],
    local: &str,
) -> Result<Option<List<R::Part>>, NoMemory>
    ensures { IfOk result (λ o. o ≡ each (R.reads reader.now) (named_in xbrli_namespace local.now (nodes_of nodes.now))) }
{
    read_named(alloc, reader, nodes, XBRLI, local)
}
