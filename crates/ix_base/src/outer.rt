//! The default namespace around markup.
ghost use Rattle.std.specs.Prelude.{◌≡◌, ◌∷◌, [], bytes_eq, None, Some};
ghost use Rattle.ix_base.specs.Spaces.{IsOuter, space_of};

use crate::tree::Name;

/// The default namespace around an element: that with which markup begins, or that of an element around, with its number.
#[derive(Clone, Copy)]
pub struct Outer<'n> {
    pub ns: &'n str,
    pub number: Option<usize>,
}

impl<'n> Outer<'n> {
    /// The namespace with which markup begins.
    pub fn start(ns: &'n str) -> Outer<'n>
        ensures ns { result.ns.now ≡ ns.entry.now }
        ensures number { result.number ≡ None }
    {
        Outer { ns, number: None }
    }

    /// The namespace of an element of this name.
    pub fn of(name: Name<'n>) -> Outer<'n>
        ensures ns { result.ns.now ≡ name.entry.ns.now }
        ensures number { result.number ≡ Some name.entry.number }
    {
        Outer {
            ns: name.ns,
            number: Some(name.number),
        }
    }

    /// Whether it is the namespace of a name. Where both have numbers the texts aren't looked at, else as far as they are equal.
    pub fn is_of(self, name: &Name<'_>) -> bool
        requires { IsOuter self (space_of name.now ∷ []) }
        ensures { result ≡ bytes_eq name.now.ns.now self.entry.ns.now }
    {
        match self.number {
            Some(number) => name.number == number,
            None => name.ns == self.ns,
        }
    }
}
