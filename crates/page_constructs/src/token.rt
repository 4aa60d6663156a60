//! What constructs mean.

use crate::written::Written;

/// An attribute as it is written. A value in which a reference is bad means nothing.
#[derive(Clone, Copy, Debug)]
pub struct Attribute<'a> {
    pub name: Written<'a>,
    pub value: Option<&'a str>,
}

/// A start tag or an empty-element tag: the offset of its `<`, its written name, and its attributes in order, which stand in
/// a list that is used again for the next tag.
#[derive(Clone, Copy, Debug)]
pub struct Tag<'a, 't> {
    pub offset: u64,
    pub name: Written<'a>,
    pub attrs: &'t [Attribute<'a>],
}

/// A construct of its form. The names and values of a tag lie in the arena (`'a`); other texts are those of the page (`'t`).
#[derive(Clone, Copy, Debug)]
pub enum Token<'a, 't> {
    StartTag(Tag<'a, 't>),
    EmptyTag(Tag<'a, 't>),
    EndTag(&'t str),
    Text(&'t str),
    /// A reference, with the character that it means, if it is a good one.
    Reference(Option<char>),
    Cdata(&'t str),
    Declaration {
        version: &'t str,
        encoding: Option<&'t str>,
    },
    Doctype {
        has_subset: bool,
    },
    /// A comment or an instruction.
    Silent,
}
