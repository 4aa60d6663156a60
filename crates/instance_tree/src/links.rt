//! What the attributes of an element say that is part of a link.
ghost use Rattle.std.specs.Prelude.{◌≡◌, option_map};
ghost use Rattle.ix_base.specs.Trees.{tree_of};
ghost use Rattle.instance_out.specs.Denotation.{xlink_at};
ghost use Rattle.instance_tree.specs.ReaderWords as reader_words;

use ix_base::namespaces::XLINK;
use ix_base::{Element, attr_of};

/// The value of an attribute of XLink. It takes no memory.
#[tactic(auto, unfolding(ix_base::specs::Namespaces::xlink_namespace))]
pub(super) fn xlink_of<'a>(e: &Element<'a>, local: &str) -> Option<&'a str>
    ensures { option_map (λ t. t.now) result ≡ xlink_at local.now (tree_of e.now) }
{
    attr_of(e, XLINK, local)
}

/// Whether an element has this `xlink:type`. It takes no memory.
pub(super) fn is_typed(e: &Element<'_>, kind: &str) -> bool
    ensures { result ≡ reader_words.is_typed kind.now (tree_of e.now) }
{
    match xlink_of(e, "type") {
        Some(value) => kind == value,
        None => false,
    }
}
