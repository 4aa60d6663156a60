//! Elements that give no markup.
ghost use Rattle.std.specs.Prelude.{◌≡◌};
ghost use Rattle.ix_base.specs.Markup as marks;
ghost use Rattle.ix_base.specs.Trees.{tree_of};

use crate::names::{is_left_out, is_opened};
use ix_base::{Element, Node};

/// Whether nodes give no markup: there is no text among them, and no element that is kept.
#[cycle(silence)]
pub(crate) fn is_silent(element: &Element<'_>) -> bool
    ensures { result ≡ marks.is_silent (tree_of element.now).children }
{
    for node in element.children {
        match node {
            Node::Chars(text) => {
                if !text.is_empty() {
                    return false;
                }
            }
            Node::Elem(below) => {
                if !gives_nothing(below) {
                    return false;
                }
            }
        }
    }
    true
}

/// Whether an element gives no markup.
#[cycle(silence)]
fn gives_nothing(element: &Element<'_>) -> bool
    ensures { result ≡ marks.silent_by (marks.manner (tree_of element.now).head.name) (marks.is_silent (tree_of element.now).children) }
{
    is_left_out(element) || (is_opened(element) && is_silent(element))
}
