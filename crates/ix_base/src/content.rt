//! The content of an instance: what a target's instance says.

ghost use Rattle.std.specs.Prelude.{◌≡◌, IfOk};
ghost use Rattle.ix_base.specs.OwnNames.{own};
ghost use Rattle.ix_base.specs.Trees.{named};

use crate::NoMemory;
use crate::list::List;
use crate::text::Text;
use crate::tree::Name;
use std::alloc::Global;

/// A name that is owned: the text of its namespace, and its local name.
#[derive(Debug, Drop)]
pub struct OwnName {
    pub ns: Text,
    pub local: Text,
}

impl OwnName {
    /// A copy of a name.
    pub fn of(alloc: Global, name: Name<'_>) -> Result<OwnName, NoMemory>
        ensures { IfOk result (λ n. n ≡ own (named name.entry)) }
    {
        Ok(OwnName {
            ns: Text::of(alloc, name.ns)?,
            local: Text::of(alloc, name.local)?,
        })
    }
}

/// How exact a number is, as a text: `INF`, or an integer in normal form.
#[derive(Debug, Drop)]
pub enum Accuracy {
    Decimals(Text),
    Precision(Text),
}

/// What an item says. A fraction has its numerator and then its denominator.
#[derive(Debug, Drop)]
pub enum Value {
    Nil,
    Plain(Text),
    Fraction(Text, Text),
}

/// A fact that has a value.
#[derive(Debug, Drop)]
pub struct Item {
    pub name: OwnName,
    pub context: Text,
    pub unit: Option<Text>,
    pub accuracy: Option<Accuracy>,
    pub id: Option<Text>,
    pub value: Value,
}

/// A fact that has facts within.
#[cycle(fact)]
#[derive(Drop)]
pub struct Tuple {
    pub name: OwnName,
    pub id: Option<Text>,
    pub nil: bool,
    pub members: List<Fact>,
}

/// An item or a tuple.
#[cycle(fact)]
#[derive(Drop)]
pub enum Fact {
    Item(Item),
    Tuple(Tuple),
}

/// When something holds, in seconds from the start of 0001-01-01. A duration has its start and then its end.
#[derive(Clone, Copy, Debug, PartialEq, Eq)]
pub enum Period {
    Instant(i64),
    Duration(i64, i64),
    Forever,
}

/// The member of a dimension: a name, or an element's name with the text that it holds.
#[derive(Debug, Drop)]
pub enum Member {
    Explicit(OwnName),
    Typed(OwnName, Text),
}

/// A dimension with its member.
#[derive(Debug, Drop)]
pub struct Dim {
    pub dimension: OwnName,
    pub member: Member,
}

/// Of whom and of when a fact speaks.
#[derive(Debug, Drop)]
pub struct Context {
    pub id: Text,
    pub scheme: Text,
    pub identifier: Text,
    pub segment: List<Dim>,
    pub scenario: List<Dim>,
    pub period: Period,
}

/// What a number counts: measures, over others where there are any.
#[derive(Debug, Drop)]
pub struct Unit {
    pub id: Text,
    pub over: List<OwnName>,
    pub under: List<OwnName>,
}

/// A reference to a linkbase.
#[derive(Debug, Drop)]
pub struct Linkbase {
    pub href: Text,
    pub role: Option<Text>,
}

/// Where a role or an arcrole is declared.
#[derive(Debug, Drop)]
pub struct RoleRef {
    pub uri: Text,
    pub href: Text,
}

/// A footnote. Its body is markup.
#[derive(Debug, Drop)]
pub struct Footnote {
    pub id: Text,
    pub role: Text,
    pub title: Option<Text>,
    pub lang: Text,
    pub body: Text,
}

/// An arc from a fact to a fact or a footnote, by their ids.
#[derive(Debug, Drop)]
pub struct Arc {
    pub arcrole: Text,
    pub from_id: Text,
    pub to_id: Text,
    pub order: Text,
}

/// The arcs of a role, with the ids of the facts and the footnotes that they name.
#[derive(Debug, Drop)]
pub struct NoteLink {
    pub role: Text,
    pub locs: List<Text>,
    pub footnotes: List<Footnote>,
    pub arcs: List<Arc>,
}

/// What the instance of a target says.
#[derive(Drop)]
pub struct Content {
    pub schemas: List<Text>,
    pub linkbases: List<Linkbase>,
    pub roles: List<RoleRef>,
    pub arcroles: List<RoleRef>,
    pub contexts: List<Context>,
    pub units: List<Unit>,
    pub facts: List<Fact>,
    pub notes: List<NoteLink>,
}
