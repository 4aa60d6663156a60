//! Tuples.
ghost use Rattle.std.specs.Prelude.{◌≡◌, nat_le};
ghost use Rattle.ix_base.specs.Facts.{before, facts_of, none};
ghost use Rattle.ix_base.specs.PlainContents.{said_of};
ghost use Rattle.instance_out.specs.Proper as proper;
ghost use Rattle.instance_lines.specs.Writable.{depth};

use ix_base::limits::DEEPEST_TUPLE;
use ix_base::{Content, Fact};

/// Whether tuples stand at most so deep in a fact.
#[cycle(shallow)]
fn is_shallow(fact: &Fact, most: u32) -> bool
    ensures { result ≡ nat_le (depth (before fact.now none)) most }
{
    match fact {
        Fact::Item(_) => true,
        Fact::Tuple(tuple) => most > 0 && are_shallow(tuple.members.as_slice(), most - 1),
    }
}

/// Whether tuples stand at most so deep in facts.
#[tactic(auto, using(crate::proofs::FactLaws::shallow_before))]
#[cycle(shallow)]
fn are_shallow(facts: &[Fact], most: u32) -> bool
    ensures { result ≡ nat_le (depth (facts_of facts.now)) most }
{
    for fact in facts {
        if !is_shallow(fact, most) {
            return false;
        }
    }
    true
}

/// Whether a nil tuple is empty, in a fact.
#[tactic(auto, using(crate::proofs::FactLaws::nil_members, crate::proofs::FactLaws::members_not_nil))]
#[cycle(empty)]
fn is_nil_empty(fact: &Fact) -> bool
    ensures { result ≡ proper.nil_is_empty (before fact.now none) }
{
    match fact {
        Fact::Item(_) => true,
        Fact::Tuple(tuple) => {
            let members = tuple.members.as_slice();
            if tuple.nil {
                members.is_empty()
            } else {
                are_nil_empty(members)
            }
        }
    }
}

/// Whether nil tuples are empty, in facts.
#[tactic(auto, using(crate::proofs::FactLaws::nil_before))]
#[cycle(empty)]
fn are_nil_empty(facts: &[Fact]) -> bool
    ensures { result ≡ proper.nil_is_empty (facts_of facts.now) }
{
    for fact in facts {
        if !is_nil_empty(fact) {
            return false;
        }
    }
    true
}

/// Whether no nil tuple has members, and tuples stand at most 100 deep. It goes at most 101 calls deep.
#[tactic(auto, unfolding(instance_out::specs::Proper::tuples_fit))]
pub(crate) fn tuples_fit(content: &Content) -> bool
    ensures { result ≡ proper.tuples_fit (said_of content.now) }
{
    let facts = content.facts.as_slice();
    are_shallow(facts, DEEPEST_TUPLE) && are_nil_empty(facts)
}
