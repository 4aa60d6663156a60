//! What the names of elements and attributes say of what becomes of them.
ghost use Rattle.std.specs.Prelude.{◌≡◌, ◌&&◌, not};
ghost use Rattle.ix_base.specs.Trees.{tree_of, valued};
ghost use Rattle.page_plain.specs.Bare as plain;
ghost use Rattle.page_plain.specs.Fates.{is_dropped, is_opened};

use ix_base::namespaces::{IX, XML};
use ix_base::{Attr, Element};

/// Whether an element is dropped with all it holds.
#[tactic(auto, unfolding(ix_base::specs::Namespaces::ix_namespace))]
pub(crate) fn is_dropped(element: &Element<'_>) -> bool
    ensures { result ≡ is_dropped (plain.fate (tree_of element.now).head.name) }
{
    element.name.ns == IX && element.name.local == "header"
}

/// Whether an element gives what its children give.
#[tactic(auto, unfolding(ix_base::specs::Namespaces::ix_namespace))]
pub(crate) fn is_opened(element: &Element<'_>) -> bool
    ensures { result ≡ is_opened (plain.fate (tree_of element.now).head.name) }
{
    element.name.ns == IX && element.name.local != "header"
}

/// Whether an attribute isn't kept.
#[tactic(auto, unfolding(ix_base::specs::Namespaces::ix_namespace))]
pub(crate) fn is_inline(attr: &Attr<'_>) -> bool
    ensures { result ≡ plain.is_inline (valued attr.now).name }
{
    attr.name.ns == IX
}

/// Whether a namespace of attributes needs a prefix of its own.
#[tactic(auto, unfolding(ix_base::specs::Namespaces::xml_namespace))]
fn needs_prefix(ns: &str) -> bool
    ensures { result ≡ plain.needs_prefix ns.now }
{
    !ns.is_empty() && ns != XML
}

/// Whether an attribute is kept, and its namespace needs a prefix of its own.
pub(crate) fn is_prefixed(attr: &Attr<'_>) -> bool
    ensures { result ≡ (not (plain.is_inline (valued attr.now).name) && plain.needs_prefix (valued attr.now).name.ns) }
{
    !is_inline(attr) && needs_prefix(attr.name.ns)
}
