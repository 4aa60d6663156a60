//! The pages of a set.

use id_table::Index;
use ix_base::{Element, Text};
use scopes::Bases;

/// A page of a set.
#[derive(Drop)]
pub struct Page<'a> {
    pub name: Text,
    pub root: &'a Element<'a>,
}

/// The pages of a set, under the base that words gave, with their index and their bases.
#[derive(Drop)]
pub struct Pages<'s, 'a> {
    pub base: &'s str,
    pub pages: &'s [Page<'a>],
    pub index: &'s Index<'a>,
    pub bases: &'s Bases,
}
