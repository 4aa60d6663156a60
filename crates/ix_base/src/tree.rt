//! Trees of pages. They lie in an arena, and borrow their texts from it.
ghost use Rattle.std.specs.Prelude.{◌≡◌, true, map};
ghost use Rattle.ix_base.specs.Bindings.{bound, are_ordered};
ghost use Rattle.ix_base.specs.KindNames.{inline_by_name};

use crate::attrs::Attrs;
use crate::kind::{Kind, inline_named};
use crate::place::Place;

/// An expanded name: the text of its namespace, empty where it has none, and its local name.
///
/// The number is that of the namespace among those of its page: 0 where it has none. Within a page, names have one number exactly
/// where the texts of their namespaces are equal, so that these need not be compared to their end. It tells nothing else, and
/// names of two pages, and one that is on no page, have nothing to do with each other's numbers. What kind of element an inline element
/// of the name is, is kept, since it is asked often.
#[derive(Clone, Copy, Debug)]
pub struct Name<'a> {
    pub ns: &'a str,
    pub local: &'a str,
    pub number: usize,
    inline: Option<Kind>,
    ghost kept: { inline ≡ inline_by_name ns.now local.now },
}

impl<'a> Name<'a> {
    /// The name in a namespace that has this number.
    pub fn of(ns: &'a str, local: &'a str, number: usize) -> Name<'a>
        ensures ns { result.ns ≡ ns.entry }
        ensures local { result.local ≡ local.entry }
        ensures number { result.number ≡ number }
    {
        Name {
            ns,
            local,
            number,
            inline: inline_named(ns, local),
        }
    }

    /// The kind of the elements of this name, where they are inline elements.
    pub(crate) fn inline(&self) -> Option<Kind>
        ensures { result ≡ inline_by_name self.now.ns.now self.now.local.now }
    {
        self.inline
    }
}

/// An attribute. Namespace declarations aren't among the attributes of an element. Attributes of one name may share it.
#[derive(Clone, Copy, Debug)]
pub struct Attr<'a> {
    pub name: &'a Name<'a>,
    pub value: &'a str,
}

/// A prefix that is bound to a namespace, with the number of that on its page. The empty prefix is the default namespace.
#[derive(Clone, Copy, Debug)]
pub struct Binding<'a> {
    pub prefix: &'a str,
    pub ns: &'a str,
    pub number: usize,
}

/// What one element declares, each prefix once, in byte order of the prefixes. An empty default namespace takes the default
/// away.
#[derive(Clone, Copy)]
pub struct Declared<'a> {
    pub list: &'a [Binding<'a>],
    ghost ordered: { are_ordered (map bound list.now) ≡ true },
}

/// What an element declares, over what is declared around it: the next level is that of the nearest element around it that declares
/// anything.
#[derive(Clone, Copy)]
pub struct Level<'a> {
    pub own: Declared<'a>,
    pub above: Option<&'a Level<'a>>,
}

/// What is bound in an element (Namespaces in XML 1.0, section 6): the level of the nearest element, itself or around it, that
/// declares anything, if any does.
#[derive(Clone, Copy)]
pub struct Scope<'a> {
    pub level: Option<&'a Level<'a>>,
}

/// A child of an element: an element or a text.
#[derive(Clone, Copy)]
#[cycle(tree)]
pub enum Node<'a> {
    Elem(&'a Element<'a>),
    Chars(&'a str),
}

/// An element. Its place is that of the `<` of its tag.
#[derive(Clone, Copy)]
#[cycle(tree)]
pub struct Element<'a> {
    pub place: Place,
    pub name: &'a Name<'a>,
    pub attrs: Attrs<'a>,
    pub scope: Scope<'a>,
    pub children: &'a [Node<'a>],
}

/// An element with the spot of its parent. At the root there is none.
#[derive(Clone, Copy)]
pub struct Spot<'a> {
    pub element: &'a Element<'a>,
    pub up: Option<&'a Spot<'a>>,
}
