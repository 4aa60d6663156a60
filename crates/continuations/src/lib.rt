//! Continuations: where the text of an element goes on.
//!
//! `link` numbers the continuations and the elements with which chains begin, and finds for each the number of the one
//! at which it goes on. Mostly that is the one behind that at which the element before it goes on: so this is looked at
//! first, and where no id was met twice nothing is looked up for it. Any other is looked up by its id, and its number
//! found by its place. The ids are those that the index keeps of each element of a chain, so that none is asked for its
//! own. From then on it goes by numbers, and walks along each continuation once, also where many elements go on at one
//! and where continuations go round in circles. Where chains share no element, those of a short chain are compared with
//! each other, and the places in a long one are put in order, and those of the elements around its own looked for among
//! them by halving.
//!
//! A table of numbers by id is made only where continuations don't come in the order of their places, and others by id or
//! by place for a rule alone that seems broken by then. Where chains share elements, `link` looks up the elements around
//! each element of a chain, and asks of each that is in one whether one chain holds both, which takes a logarithm of the
//! number of chains. Where a rule is broken it makes no chains; where none is, chains share no element, so that their
//! slices together are no longer than the elements are many. `Chains::of` looks for a place in a few slots, and then by
//! halving. It takes no memory.
#![tactic(auto)]

mod by_place;
mod chains;
mod inside;
pub mod laws;
mod linking;
mod links;
mod marks;
mod named;
mod nested;
mod numbers;
mod places;
mod reached;
mod seen;
mod trail;
mod visits;
mod walk;
mod walks;

pub use chains::Chains;
pub use linking::link;
