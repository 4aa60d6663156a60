//! Sets whose links break no rule, and those of them whose values break none.

use crate::groups::{Groups, at};
use crate::links::Linked;
use ix_base::Spot;
use std::marker::Model;

/// A set whose links break no rule. Contracts see its elements, with the bases of their pages.
#[derive(Drop)]
pub struct LinkedSet<'l, 's, 'a> {
    pub(crate) linked: &'l Linked<'s, 'a>,
}

impl<'l, 's, 'a> Model for LinkedSet<'l, 's, 'a> {
    ghost use Rattle.target_contents.specs.LinkedSets.{BasedElements, IsLinked, IsShallow, based, based_code};

    ghost Value = { BasedElements };

    ghost coded = { based_code };

    ghost view = { λ s. based s.linked.now };

    ghost invariant = { λ s. IsLinked s.linked.now × IsShallow (based s.linked.now) };
}

impl<'l, 's, 'a> LinkedSet<'l, 's, 'a> {
    ghost use Rattle.std.specs.Prelude.{◌≡◌};
    ghost use Rattle.target_contents.specs.LinkedSets.{IsLinked, IsShallow, based};

    /// The set of which these links were made.
    pub fn of(linked: &'l Linked<'s, 'a>) -> LinkedSet<'l, 's, 'a>
        requires { IsLinked linked.now × IsShallow (based linked.now) }
        ensures { result ≡ based linked.entry.now }
    {
        LinkedSet { linked }
    }
}

/// A set whose links and values break no rule, with its facts and references by their targets. Contracts see the same of it.
pub(crate) struct ValuedSet<'l, 's, 'a> {
    pub(crate) set: LinkedSet<'l, 's, 'a>,
    pub(crate) groups: Groups<'a>,
}

impl Drop for ValuedSet<'_, '_, '_> {
    fn drop(self) {
        let ValuedSet { set: _, groups: _ } = self;
    }
}

impl<'l, 's, 'a> Model for ValuedSet<'l, 's, 'a> {
    ghost use Rattle.target_contents.specs.Groups.{AreGroups};
    ghost use Rattle.target_contents.specs.LinkedSets.{BasedElements, IsValued, based_code};

    ghost Value = { BasedElements };

    ghost coded = { based_code };

    ghost view = { λ s. s.set };

    ghost invariant = { λ s. IsValued s.set × AreGroups s.groups s.set.elements };
}

impl<'a> ValuedSet<'_, '_, 'a> {
    ghost use Rattle.std.specs.Prelude.{◌≡◌, filter};
    ghost use Rattle.id_table.specs.Tables.{all_located};
    ghost use Rattle.target_contents.specs.Groups.{is_fact_of};

    /// The facts of a target, in order. It takes no memory.
    pub(crate) fn facts_of(&self, target: &str) -> &[&'a Spot<'a>]
        ensures { all_located result.now ≡ filter (is_fact_of target.now) self.now.elements }
    {
        let set = &self.set;
        let index = set.linked.index;
        if index.has_targets() {
            return at(&self.groups.facts, &self.groups.none, target);
        }
        let facts = index.facts();
        if target.is_empty() {
            facts
        } else {
            &facts[..0]
        }
    }
}
