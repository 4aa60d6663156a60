//! What every crate stands on: texts and lists, the content of an instance, rules and places, the outside and objects
//! in memory that stand in for it.
#![tactic(auto)]

mod allowed;
mod attribute;
mod attrs;
mod breach;
mod buffer;
mod content;
mod escape;
mod kind;
pub mod limits;
mod list;
mod marks;
mod memory;
mod name_fault;
pub mod namespaces;
mod once;
mod outer;
mod outside;
mod place;
mod role;
mod rule;
mod scope;
mod text;
mod tree;
mod white;

pub use allowed::{are_allowed, is_allowed};
pub use attribute::{attr_of, token_at, xml_base, xml_lang};
pub use attrs::Attrs;
pub use breach::{Breach, Breaches, Class, Found, Report};
pub use buffer::{keep_name, text_at, zeros};
pub use content::{
    Accuracy, Arc, Content, Context, Dim, Fact, Footnote, Item, Linkbase, Member, NoteLink,
    OwnName, Period, RoleRef, Tuple, Unit, Value,
};
pub use escape::{push_ae, push_te};
pub use kind::{Kind, is_ix, ix_kind, kind_in, kind_of, parent_kind};
pub use list::List;
pub use memory::{MemPage, MemPages, MemTargets, MemText};
pub use name_fault::NameFault;
pub use once::{each_once, push_unlike};
pub use outer::Outer;
pub use outside::{Failed, PageSource, TargetSink, TextSink};
pub use place::Place;
pub use role::{has_unit, is_continuation, is_fact, is_item, is_start, is_tuple, may_go_on};
pub use rule::Rule;
use std::alloc::{AllocError, AllocFailed};
pub use text::{Text, shown};
use thiserror::Error;
pub use tree::{Attr, Binding, Declared, Element, Level, Name, Node, Scope, Spot};
pub use white::{is_white, token, trim_start};

/// Want of memory.
#[derive(Clone, Copy, Debug, PartialEq, Eq, Error)]
#[error("no memory is left")]
pub struct NoMemory;

impl From<AllocError> for NoMemory {
    fn from(_error: AllocError) -> NoMemory {
        NoMemory
    }
}

impl<T: Drop> From<AllocFailed<T>> for NoMemory {
    fn from(_error: AllocFailed<T>) -> NoMemory {
        NoMemory
    }
}
