//! A page's tree, built from its constructs one after another.
ghost use Rattle.std.specs.Prelude.{◌≡◌, ◌∷◌, [], ℕ, IfOk, IfSome, OnOk, map, flat_map, option_map, string_bytes, encode_utf8};
ghost use Rattle.ix_base.specs.Elements.{pages_of};
ghost use Rattle.ix_base.specs.Spaces.{AreNumbered, spaces_bound, spaces_of};
ghost use Rattle.ix_base.specs.Trees.{tree_of, bindings_in, none};
ghost use Rattle.page_tree.specs.Break.{is_outside as is_outside_of, matches as matches_of};
ghost use Rattle.page_tree.specs.Expansions.{expansion, expansions};
ghost use Rattle.page_tree.specs.Machine.{outline_of, scope_in, begin, flushed, opening, closing, running};
ghost use Rattle.page_tree.specs.Names.{IsNamed};
ghost use Rattle.page_tree.specs.Spaces.{AreFrom, HaveNumbers, spaces_expanded};
ghost use Rattle.page_tree.specs.Stacks.{frame, frames_of, pages_open, spaces_open, AreAll};
ghost use Rattle.page_tree.specs.Tags.{head_of, scope_of as scope_under_tag};
ghost use Rattle.page_constructs.specs.Model.{tag_of};

use crate::element_names::ElementNames;
use crate::names::{ElementName, Expanded};
use crate::opened::Open;
use crate::setting::Setting;
use crate::shared::Shared;
use crate::spaces::Spaces;
use crate::stack::{close_element, empty_list, flush_innermost, open_element, put};
use ix_base::{Element, NoMemory, Node};
use page_constructs::Tag;
use std::alloc::Global;

/// What is built of the constructs so far: the open elements, the innermost last, the text since the last tag, the root
/// once it is whole, and whether a doctype was there.
pub(crate) struct Building<'a> {
    pub elements: Vec<Open<'a>>,
    pub text: String,
    pub root: Option<&'a Element<'a>>,
    pub doctyped: bool,
    /// The namespaces that were declared so far.
    pub spaces: Spaces<'a>,
    /// The attributes of a tag with their expanded names, one tag after another, and names that later ones may share.
    pub expanded: Vec<Expanded<'a>>,
    pub shared: Shared<'a>,
    pub names: ElementNames<'a>,
    /// Lists of children that ended elements are done with, and the next ones use.
    pub spare: Vec<Vec<Node<'a>>>,
}

impl Drop for Building<'_> {
    fn drop(self) {
        let Building {
            elements: _,
            text: _,
            root: _,
            doctyped: _,
            spaces: _,
            expanded: _,
            shared: _,
            names: _,
            spare: _,
        } = self;
    }
}

impl<'a> Building<'a> {
    ghost use Rattle.page_tree.specs.Buildings.{state_of, IsOnPage};
    ghost use Rattle.page_tree.specs.Effects.{Becomes};

    /// Nothing is built yet.
    pub(crate) fn new(alloc: Global) -> Building<'a>
        ensures state { state_of result ≡ begin }
        ensures on_page { (page : ℕ) → IsOnPage page result }
    {
        Building {
            elements: Vec::new(alloc),
            text: String::new(alloc),
            root: None,
            doctyped: false,
            spaces: Spaces::new(alloc),
            expanded: Vec::new(alloc),
            shared: Shared::new(alloc),
            names: ElementNames::new(alloc),
            spare: Vec::new(alloc),
        }
    }

    /// Whether no element is open.
    pub(crate) fn is_outside(&self) -> bool
        ensures { result ≡ is_outside_of (outline_of (state_of self.now)) }
    {
        self.elements.is_empty()
    }

    /// Whether a root was begun.
    pub(crate) fn is_rooted(&self) -> bool
        ensures { result ≡ (outline_of (state_of self.now)).rooted }
    {
        if self.is_outside() {
            return self.root.is_some();
        }
        true
    }

    /// The root, once it is whole.
    pub(crate) fn finished(&self) -> Option<&'a Element<'a>>
        ensures root { option_map (λ e. tree_of e.now) result ≡ (state_of self.now).root }
        ensures on_page { (page : ℕ) → IsOnPage page self.now → IfSome result (λ e. AreAll page (pages_of e.now)) }
        ensures spaces { (page : ℕ) → IsOnPage page self.now → IfSome result (λ e. AreNumbered (spaces_of e.now)) }
    {
        self.root
    }

    /// Whether an end tag's name is that of the innermost open element.
    pub(crate) fn matches(&self, name: &str) -> bool
        ensures { result ≡ matches_of (outline_of (state_of self.now)).open_elements name.now }
    {
        match self.elements.last() {
            Some(element) => element.written == name,
            None => false,
        }
    }

    /// An element begins: the text before it ends.
    fn begin(
        &mut self,
        setting: &Setting<'a>,
        own: ElementName<'a>,
        tag: &Tag<'a, '_>,
    ) -> Result<Open<'a>, NoMemory>
        requires scope { bindings_in own.scope ≡ scope_under_tag (scope_in (state_of self.old).frames) (tag_of tag.now) }
        requires expanded { map expansion self.old.expanded.items ≡ expansions (bindings_in own.scope) (tag_of tag.now) }
        requires named { IsNamed own tag.now.name.name.now }
        ensures frame { IfOk result (λ o. frame o ≡ record {
          written = tag.now.name.name.now;
          head = head_of (scope_in (state_of self.old).frames) (tag_of tag.now);
          done = none;
        }) }
        ensures flushed { OnOk result ((frames_of self.new.elements.items
            ≡ flushed (frames_of self.old.elements.items) (string_bytes self.old.text)) × (string_bytes self.new.text ≡ [])) }
        ensures rest { (self.new.root ≡ self.old.root) × (self.new.doctyped ≡ self.old.doctyped) × (self.new.spaces ≡ self.old.spaces) }
        ensures pages { IfOk result (λ o. pages_open o ≡ setting.now.page ∷ []) }
        ensures on_page { OnOk result (flat_map pages_open self.new.elements.items ≡ flat_map pages_open self.old.elements.items) }
        ensures own_spaces { IfOk result (λ o. AreFrom (spaces_bound own.entry.scope) (spaces_expanded self.old.expanded.items)
            → AreFrom (spaces_bound own.entry.scope) (spaces_open o)) }
        ensures spaces { OnOk result (flat_map spaces_open self.new.elements.items ≡ flat_map spaces_open self.old.elements.items) }
    {
        flush_innermost(setting.arena, &mut self.elements, &mut self.text)?;
        self.text.clear();
        let kept = self.names.keep(setting.arena, own.name)?;
        let children = empty_list(setting.alloc, &mut self.spare);
        open_element(
            children,
            setting.arena,
            setting.page,
            own,
            tag,
            self.expanded.as_slice(),
            kept,
        )
    }

    /// An element is open from here on.
    pub(crate) fn open(
        &mut self,
        setting: &Setting<'a>,
        own: ElementName<'a>,
        tag: &Tag<'a, '_>,
    ) -> Result<(), NoMemory>
        requires scope { bindings_in own.scope ≡ scope_under_tag (scope_in (state_of self.old).frames) (tag_of tag.now) }
        requires expanded { map expansion self.old.expanded.items ≡ expansions (bindings_in own.scope) (tag_of tag.now) }
        requires from { AreFrom (spaces_bound own.scope) (spaces_expanded self.old.expanded.items) }
        requires spaces { IsOnPage setting.now.page self.old → HaveNumbers self.old.spaces.numbers (spaces_bound own.scope) }
        requires named { IsNamed own tag.now.name.name.now }
        ensures { OnOk result (Becomes setting.now.page self.old self.new (opening (state_of self.old) (tag_of tag.now))) }
    {
        let element = self.begin(setting, own, tag)?;
        self.elements.push(element)?;
        Ok(())
    }

    /// The innermost open element ends.
    pub(crate) fn close(&mut self, setting: &Setting<'a>) -> Result<(), NoMemory>
        ensures { OnOk result (Becomes setting.now.page self.old self.new (closing (state_of self.old).frames (state_of self.old))) }
    {
        flush_innermost(setting.arena, &mut self.elements, &mut self.text)?;
        let Some(own) = self.elements.pop() else {
            return Ok(());
        };
        let element = close_element(setting.arena, own, &mut self.spare)?;
        put(&mut self.elements, &mut self.root, element)?;
        Ok(())
    }

    /// Characters come. They belong to the innermost open element.
    pub(crate) fn run(&mut self, chars: &str) -> Result<(), NoMemory>
        ensures { (page : ℕ) → OnOk result (Becomes page self.old self.new
            (running (state_of self.old).frames (state_of self.old) chars.now)) }
    {
        if self.elements.is_empty() {
            return Ok(());
        }
        self.text.push_str(chars)?;
        Ok(())
    }

    /// A character comes. It belongs to the innermost open element.
    pub(crate) fn run_char(&mut self, ch: char) -> Result<(), NoMemory>
        ensures { (page : ℕ) → OnOk result (Becomes page self.old self.new
            (running (state_of self.old).frames (state_of self.old) (encode_utf8 ch))) }
    {
        if self.elements.is_empty() {
            return Ok(());
        }
        self.text.push(ch)?;
        Ok(())
    }
}
