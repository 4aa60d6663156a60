//! What tags are read into.
ghost use Rattle.std.specs.Prelude.{◌≡◌, ◌<◌, [], true, IfSome, length};
ghost use Rattle.ix_base.specs.Scope.{is_qname as is_qname_of};
ghost use Rattle.page_constructs.specs.Meanings.{before, from, ends_name, ends_tag_name};

use crate::kind::starts;
use crate::meaning::behind_front;
use crate::token::Attribute;
use crate::written::Written;
use ix_base::NoMemory;
use std::alloc::Global;

/// How many names are remembered. Each name is compared with these at most, and one more.
const MOST_NAMES: usize = 16;

/// Names that were read, which later ones may be. Most come again in the order in which they came, tag after tag: so one is looked for
/// behind the one that was found last, and then from the first on. The name of a tag is often that of the tag before it, and is compared
/// with that one first.
pub struct Names<'a> {
    known: Vec<Written<'a>>,
    next: usize,
    /// The place of the last tag's name.
    tag: usize,
}

impl Drop for Names<'_> {
    fn drop(self) {
        let Names {
            known: _,
            next: _,
            tag: _,
        } = self;
    }
}

impl<'a> Names<'a> {
    /// No name so far.
    fn new(alloc: Global) -> Names<'a>
        ensures { result.known.items ≡ [] }
    {
        Names {
            known: Vec::new(alloc),
            next: 0,
            tag: 0,
        }
    }

    /// The name at a place, where it is this one.
    #[inline(always)]
    fn at(&self, place: usize, name: &str) -> Option<&Written<'a>>
        ensures same { IfSome result (λ w. w.now.name.now ≡ name.now) }
        ensures there { IfSome result (λ w. place < length self.now.known.items) }
    {
        match self.known.get(place) {
            Some(known) if known.name == name => Some(known),
            _ => None,
        }
    }

    /// The name of an attribute at the front, and what is behind it, where that is the name which came behind the one that was found
    /// last.
    pub(crate) fn expected<'t>(&mut self, text: &'t str) -> Option<(Written<'a>, &'t str)>
        ensures name { IfSome result (λ p. p.0.name.now ≡ before ends_name text.now) }
        ensures rest { IfSome result (λ p. p.1.now ≡ from ends_name text.now) }
    {
        let known = *self.known.get(self.next)?;
        let rest = behind_front(known.name, text)?;
        if !starts(rest.as_bytes(), b"=") {
            return None;
        }
        self.next += 1;
        Some((known, rest))
    }

    /// The name of a tag at the front, and what is behind it, where that is the name at a place.
    fn tag_at<'t>(&mut self, place: usize, text: &'t str) -> Option<(Written<'a>, &'t str)>
        ensures name { IfSome result (λ p. p.0.name.now ≡ before ends_tag_name text.now) }
        ensures rest { IfSome result (λ p. p.1.now ≡ from ends_tag_name text.now) }
    {
        let known = *self.known.get(place)?;
        let rest = behind_front(known.name, text)?;
        if !may_follow(rest.as_bytes()) {
            return None;
        }
        self.tag = place;
        self.next = place + 1;
        Some((known, rest))
    }

    /// The same, where that is the name of the last tag, or the one which came behind the name that was found last.
    pub(crate) fn expected_tag<'t>(&mut self, text: &'t str) -> Option<(Written<'a>, &'t str)>
        ensures name { IfSome result (λ p. p.0.name.now ≡ before ends_tag_name text.now) }
        ensures rest { IfSome result (λ p. p.1.now ≡ from ends_tag_name text.now) }
    {
        if let Some(same) = self.tag_at(self.tag, text) {
            return Some(same);
        }
        self.tag_at(self.next, text)
    }

    /// Whether a text is the name of the last tag.
    pub(crate) fn is_last_tag(&self, text: &str) -> bool
        ensures { result ≡ true → is_qname_of text.now ≡ true }
    {
        match self.known.get(self.tag) {
            Some(known) => known.name == text,
            None => false,
        }
    }

    /// The name that was found or remembered last is that of a tag.
    pub(crate) fn note_tag(&mut self) {
        self.tag = self.next.saturating_sub(1);
    }

    /// The same name, where it is remembered.
    pub(crate) fn find(&mut self, name: &str) -> Option<Written<'a>>
        ensures { IfSome result (λ w. w.name.now ≡ name.now) }
    {
        if let Some(known) = self.at(self.next, name) {
            let known = *known;
            self.next += 1;
            return Some(known);
        }
        for place in 0..self.known.len() {
            if let Some(known) = self.at(place, name) {
                let known = *known;
                self.next = place + 1;
                return Some(known);
            }
        }
        None
    }

    /// Remembers a name. Where as many are remembered as may be, all of them are forgotten.
    pub(crate) fn remember(&mut self, name: Written<'a>) -> Result<(), NoMemory> {
        if self.known.len() >= MOST_NAMES {
            self.known.clear();
        }
        self.known.push(name)?;
        self.next = self.known.len();
        Ok(())
    }
}

/// Whether a tag's name may end in front of this: most do before a space or the end.
fn may_follow(rest: &[u8]) -> bool
    ensures { result ≡ true → before ends_tag_name rest.now ≡ [] }
{
    match rest.first() {
        Some(byte) => *byte == b' ',
        None => true,
    }
}

/// What a tag is read into, and each later one again: the list of its attributes, and names that were read.
pub struct TagRoom<'a> {
    pub(crate) attrs: Vec<Attribute<'a>>,
    pub(crate) names: Names<'a>,
}

impl Drop for TagRoom<'_> {
    fn drop(self) {
        let TagRoom { attrs: _, names: _ } = self;
    }
}

impl<'a> TagRoom<'a> {
    /// Room for no tag so far.
    pub fn new(alloc: Global) -> TagRoom<'a>
        ensures attributes { result.attrs.items ≡ [] }
        ensures names { result.names.known.items ≡ [] }
    {
        TagRoom {
            attrs: Vec::new(alloc),
            names: Names::new(alloc),
        }
    }
}
