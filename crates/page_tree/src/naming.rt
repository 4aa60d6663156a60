//! The name of a tag's element in a scope of its own, and what the tag breaks.
ghost use Rattle.std.specs.Prelude.{◌≡◌, ◌&&◌, IfOk, map, flat_map};
ghost use Rattle.ix_base.specs.Spaces.{spaces_bound};
ghost use Rattle.ix_base.specs.Trees.{bindings_in};
ghost use Rattle.page_tree.specs.Break.{broken_by_tag, is_outside as is_outside_of};
ghost use Rattle.page_tree.specs.Expansions.{expansion, expansions};
ghost use Rattle.page_tree.specs.Machine.{outline_of, scope_in};
ghost use Rattle.page_tree.specs.Names.{IsNamed};
ghost use Rattle.page_tree.specs.Spaces.{AreFrom, HaveNumbers, Keeps, spaces_expanded};
ghost use Rattle.page_tree.specs.Stacks.{spaces_open};
ghost use Rattle.page_tree.specs.Tags.{scope_of as scope_under_tag};
ghost use Rattle.page_constructs.specs.Model.{tag_of};

use crate::judging::judge_names;
use crate::names::{ElementName, element_name, expand};
use crate::refusal::Refusal;
use crate::scope::scope_of;
use crate::setting::Setting;
use crate::stack::innermost_scope;
use crate::tree::Building;
use ix_base::{NoMemory, Rule, Scope};
use page_constructs::Tag;

impl<'a> Building<'a> {
    ghost use Rattle.page_tree.specs.Buildings.{state_of, IsOnPage};
    ghost use Rattle.page_tree.specs.Effects.{Judges, Becomes};

    /// The scope of an element that begins here.
    fn element_scope(
        &mut self,
        setting: &Setting<'a>,
        tag: &Tag<'a, '_>,
    ) -> Result<Scope<'a>, NoMemory>
        ensures bindings { IfOk result (λ s. bindings_in s ≡ scope_under_tag (scope_in (state_of self.old).frames) (tag_of tag.now)) }
        ensures spaces { IfOk result (λ s. HaveNumbers self.new.spaces.numbers (flat_map spaces_open self.old.elements.items)
            → HaveNumbers self.new.spaces.numbers (spaces_bound s)) }
        ensures kept { Keeps self.old.spaces.numbers self.new.spaces.numbers }
        ensures same { self.new ≡ record self.old { spaces = self.new.spaces } }
    {
        let outer = innermost_scope(setting.arena, &self.elements)?;
        scope_of(
            setting.alloc,
            setting.arena,
            &mut self.spaces,
            outer,
            tag.attrs,
        )
    }

    /// The name of a tag's element, in a scope of its own. Its attributes are expanded.
    fn element_name(
        &mut self,
        setting: &Setting<'a>,
        tag: &Tag<'a, '_>,
    ) -> Result<ElementName<'a>, NoMemory>
        ensures scope { IfOk result (λ o. bindings_in o.scope ≡ scope_under_tag (scope_in (state_of self.old).frames) (tag_of tag.now)) }
        ensures expanded { IfOk result (λ o. map expansion self.new.expanded.items ≡ expansions (bindings_in o.scope) (tag_of tag.now)) }
        ensures from { IfOk result (λ o. AreFrom (spaces_bound o.scope) (spaces_expanded self.new.expanded.items)) }
        ensures spaces { IfOk result (λ o. IsOnPage setting.now.page self.new
            → HaveNumbers self.new.spaces.numbers (spaces_bound o.scope)) }
        ensures named { IfOk result (λ o. IsNamed o tag.now.name.name.now) }
        ensures becomes { Becomes setting.now.page self.old self.new (state_of self.old) }
    {
        let scope = self.element_scope(setting, tag)?;
        expand(
            setting.arena,
            &mut self.shared,
            scope,
            tag.attrs,
            &mut self.expanded,
        )?;
        Ok(element_name(scope, &tag.name))
    }

    /// Whether an element that begins here would be a second root.
    fn is_behind_root(&self) -> bool
        ensures { result ≡ (is_outside_of (outline_of (state_of self.now)) && (outline_of (state_of self.now)).rooted) }
    {
        if self.is_outside() {
            return self.is_rooted();
        }
        false
    }

    /// Judges a tag, whose element has this name and this scope: the lowest rule that it breaks is an error.
    fn judge_tag(
        &self,
        setting: &Setting<'_>,
        own: &ElementName<'_>,
        tag: &Tag<'_, '_>,
    ) -> Result<(), Refusal>
        requires scope { bindings_in own.now.scope ≡ scope_under_tag (scope_in (state_of self.now).frames) (tag_of tag.now) }
        requires expanded { map expansion self.now.expanded.items ≡ expansions (bindings_in own.now.scope) (tag_of tag.now) }
        requires named { IsNamed own.now tag.now.name.name.now }
        ensures { Judges (broken_by_tag setting.now.depth (outline_of (state_of self.now)) (tag_of tag.now)) result }
    {
        judge_names(setting.alloc, own, tag, self.expanded.as_slice())?;
        if self.elements.len() >= setting.depth as usize {
            return Err(Refusal::Breaks(Rule::W10));
        }
        if self.is_behind_root() {
            return Err(Refusal::Breaks(Rule::W12));
        }
        Ok(())
    }

    /// The name of a tag's element and its scope. The lowest rule that the tag breaks is an error. Its attributes are expanded.
    #[inline(always)]
    pub(crate) fn judge(
        &mut self,
        setting: &Setting<'a>,
        tag: &Tag<'a, '_>,
    ) -> Result<ElementName<'a>, Refusal>
        ensures scope { IfOk result (λ o. bindings_in o.scope ≡ scope_under_tag (scope_in (state_of self.old).frames) (tag_of tag.now)) }
        ensures expanded { IfOk result (λ o. map expansion self.new.expanded.items ≡ expansions (bindings_in o.scope) (tag_of tag.now)) }
        ensures from { IfOk result (λ o. AreFrom (spaces_bound o.scope) (spaces_expanded self.new.expanded.items)) }
        ensures spaces { IfOk result (λ o. IsOnPage setting.now.page self.new
            → HaveNumbers self.new.spaces.numbers (spaces_bound o.scope)) }
        ensures named { IfOk result (λ o. IsNamed o tag.now.name.name.now) }
        ensures rule { Judges (broken_by_tag setting.now.depth (outline_of (state_of self.old)) (tag_of tag.now)) result }
        ensures becomes { Becomes setting.now.page self.old self.new (state_of self.old) }
    {
        let own = self.element_name(setting, tag)?;
        self.judge_tag(setting, &own, tag)?;
        Ok(own)
    }
}
