//! The rules of the elements of a page.
ghost use Rattle.std.specs.Prelude.{◌≡◌, ◌++◌, OnOk, OnErr, option_map};
ghost use Rattle.ix_base.specs.ElementRules.{found_on};
ghost use Rattle.ix_base.specs.Elements.{path_above};
ghost use Rattle.ix_base.specs.Readers.{lang_along};
ghost use Rattle.ix_base.specs.Trees.{tree_of};
ghost use Rattle.ix_base.specs.Fronts.{AppendsFront};
ghost use Rattle.ix_grammar.specs.Additions.{found_from};

use crate::references::lang_within;
use crate::rules::check_spot;
use ix_base::{Breaches, Element, NoMemory, Node, Place, Spot};
use std::alloc::Global;

/// Adds the rules that an element and those below it break, in document order. The element stands below `up`, where
/// `around` is the `xml:lang` that holds.
fn walk<'a>(
    alloc: Global,
    page: u32,
    element: &'a Element<'a>,
    up: Option<&'a Spot<'a>>,
    around: Option<&'a str>,
    breaches: &mut Breaches,
) -> Result<(), NoMemory>
    requires { option_map (λ s. s.now) around ≡ lang_along (path_above up) }
    ensures ok { OnOk result (breaches.new ≡ breaches.old ++ found_from page (path_above up.entry) (tree_of element.now)) }
    ensures err { OnErr result (AppendsFront (found_from page (path_above up.entry) (tree_of element.now)) breaches.old breaches.new) }
{
    let spot = Spot { element, up };
    let lang = lang_within(element, around);
    let place = Place {
        page,
        offset: element.place.offset,
    };
    check_spot(alloc, &spot, lang, place, breaches)?;
    for node in element.children {
        if let Node::Elem(below) = node {
            walk(alloc, page, below, Some(&spot), lang, breaches)?;
        }
    }
    Ok(())
}

/// Adds exactly the rules of elements that the elements of a page break, element by element in document order, and for
/// each in the order of their table. The page's number is that of its root. After a refusal a front of them may have
/// been added.
///
/// It takes time in the length of the page, times its depth at most, beside the sorting of the dimensions of a context
/// and of the measures of a unit.
pub fn check_page(
    alloc: Global,
    root: &Element<'_>,
    breaches: &mut Breaches,
) -> Result<(), NoMemory>
    ensures ok { OnOk result (breaches.new ≡ breaches.old ++ found_on root.now.place.page (tree_of root.now)) }
    ensures err { OnErr result (AppendsFront (found_on root.now.place.page (tree_of root.now)) breaches.old breaches.new) }
{
    walk(alloc, root.place.page, root, None, None, breaches)
}
