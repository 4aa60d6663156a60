//! What the links and the values of a set of pages come to: the rules that they break, or the content of each target.
//!
//! `link_all` looks for the rules on links and makes chains, members, relationships, the addresses of roles and the ids that items name;
//! `value_faults` looks for the rules of values; `all_targets` makes the contents. Facts, references and what items name are put together
//! by their targets once, and so are the arcs of relationships, so that a target costs what it has; the value of an item that may break a
//! rule is made twice, once for the rules of values and once for the content. References to roles are kept by their URIs, and a target
//! looks up those that it uses. Beside the sorting of names, ids and lines the work grows with the elements and with what is written, and
//! with the depth of the elements where a base or a path is followed.
#![tactic(auto)]

mod addresses;
mod contents;
mod facts_in;
mod groups;
mod linked;
mod links;
mod notes;
mod outcome;
mod parts;
mod references;
mod values;

pub use contents::all_targets;
pub use linked::LinkedSet;
pub use links::{Linked, link_all};
pub use outcome::{Outcome, Target};
pub use values::value_faults;
