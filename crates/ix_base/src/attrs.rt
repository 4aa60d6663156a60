//! The attributes of an element, and the two of them of which the elements below ask, too.
ghost use Rattle.std.specs.Prelude.{◌≡◌, [], codes, map, option_map, slice_get};
ghost use Rattle.ix_base.specs.Attributes.{valued, value_of, place_named, kept_place};
ghost use Rattle.ix_base.specs.Marks.{marks_of};
ghost use Rattle.ix_base.specs.Namespaces.{xml_namespace};

use crate::marks::{marks_in, may_have};
use crate::namespaces::XML;
use crate::tree::Attr;

/// The attributes of an element, in the order of its tag. It is kept where `xml:lang` and `xml:base` stand among them, so that an
/// element tells these in one step, however many attributes it has. A place from 2^32 - 1 on is kept as that number, and looked for
/// each time. The marks of their local names are kept, too, so that most names that none of them has aren't looked for.
#[derive(Clone, Copy)]
pub struct Attrs<'a> {
    marks: u32,
    lang_at: u32,
    base_at: u32,
    pub written: &'a [Attr<'a>],
    ghost lang: { lang_at ≡ kept_place (map valued written.now) xml_namespace (codes "lang") },
    ghost base: { base_at ≡ kept_place (map valued written.now) xml_namespace (codes "base") },
    ghost marked: { marks ≡ marks_of (map valued written.now) },
}

/// The index of the first attribute of this name, or their number.
fn place_of(attrs: &[Attr<'_>], ns: &str, local: &str) -> usize
    ensures { result ≡ place_named (map valued attrs.now) ns.now local.now }
{
    for (at, attr) in attrs.iter().enumerate() {
        if attr.name.local == local && attr.name.ns == ns {
            return at;
        }
    }
    attrs.len()
}

/// The same of a name in the namespace of `xml`.
#[tactic(auto, unfolding(crate::specs::Namespaces::xml_namespace))]
fn place_of_xml(attrs: &[Attr<'_>], local: &str) -> usize
    ensures { result ≡ place_named (map valued attrs.now) xml_namespace local.now }
{
    place_of(attrs, XML, local)
}

/// The same, as far as 32 bits tell it.
fn kept_place_of(attrs: &[Attr<'_>], local: &str) -> u32
    ensures { result ≡ kept_place (map valued attrs.now) xml_namespace local.now }
{
    let place = place_of_xml(attrs, local);
    if place < 4_294_967_295 {
        place as u32
    } else {
        4_294_967_295
    }
}

/// The value of the attribute at an index, where one stands there.
fn value_at<'a>(attrs: &[Attr<'a>], at: usize) -> Option<&'a str>
    ensures { option_map (λ s. s.now) result ≡ option_map (λ a. a.value) (slice_get (map valued attrs.now) at) }
{
    Some(attrs.get(at)?.value)
}

/// The value of the attribute of a name in the namespace of `xml`, of which the place is kept.
#[tactic(auto, using(crate::proofs::AttrLemmas::value_placed, crate::proofs::AttrLemmas::kept_place_below))]
fn value_of_xml<'a>(attrs: &[Attr<'a>], local: &str, kept: u32) -> Option<&'a str>
    requires { kept ≡ kept_place (map valued attrs.now) xml_namespace local.now }
    ensures { option_map (λ s. s.now) result ≡ value_of (map valued attrs.now) xml_namespace local.now }
{
    let place = if kept < 4_294_967_295 {
        kept as usize
    } else {
        place_of_xml(attrs, local)
    };
    value_at(attrs, place)
}

/// The value of the first attribute of this name.
fn value_in<'a>(attrs: &[Attr<'a>], ns: &str, local: &str) -> Option<&'a str>
    ensures { option_map (λ s. s.now) result ≡ value_of (map valued attrs.now) ns.now local.now }
{
    for attr in attrs {
        if attr.name.local == local && attr.name.ns == ns {
            return Some(attr.value);
        }
    }
    None
}

impl<'a> Attrs<'a> {
    /// No attributes.
    pub const fn empty() -> Attrs<'a>
        ensures { result.written.now ≡ [] }
    {
        Attrs {
            written: &[],
            lang_at: 0,
            base_at: 0,
            marks: 0,
        }
    }

    /// These attributes. It takes no memory.
    pub fn of(written: &'a [Attr<'a>]) -> Attrs<'a>
        ensures { result.written ≡ written.entry }
    {
        Attrs {
            written,
            lang_at: kept_place_of(written, "lang"),
            base_at: kept_place_of(written, "base"),
            marks: marks_in(written),
        }
    }

    /// The value of the attribute of this name. Those of most names that none has are told by their marks.
    #[tactic(auto, using(crate::proofs::MarkLaws::none_unmarked))]
    pub(crate) fn value(self, ns: &str, local: &str) -> Option<&'a str>
        ensures { option_map (λ s. s.now) result ≡ value_of (map valued self.entry.written.now) ns.now local.now }
    {
        if may_have(self.marks, local) {
            value_in(self.written, ns, local)
        } else {
            None
        }
    }

    /// The value of `xml:lang`.
    pub(crate) fn lang(self) -> Option<&'a str>
        ensures { option_map (λ s. s.now) result ≡ value_of (map valued self.entry.written.now) xml_namespace (codes "lang") }
    {
        value_of_xml(self.written, "lang", self.lang_at)
    }

    /// The value of `xml:base`.
    pub(crate) fn base(self) -> Option<&'a str>
        ensures { option_map (λ s. s.now) result ≡ value_of (map valued self.entry.written.now) xml_namespace (codes "base") }
    {
        value_of_xml(self.written, "base", self.base_at)
    }
}
