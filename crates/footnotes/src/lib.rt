//! Relationships: the arcs between facts and footnotes, and the footnote links of a target.
//!
//! `relate` looks each id of a relationship up once, asks the rules of what was found, and keeps the arcs by the targets of
//! the facts from which they go. Those of one relationship from one fact are a group, so that a relationship from m facts
//! to n ends takes memory for m and n. `Relations::notes` goes through the groups of its target alone: it sorts them by
//! role, and then puts the ids, the footnotes and the arcs of each role in order. The arcs themselves are made here, so
//! that it costs what the arcs do, and a logarithm for their order.
#![tactic(auto)]

mod arcs;
mod footnote_links;
mod footnotes;
pub mod laws;
mod order;
mod relationships;
mod rules;

pub use footnote_links::Relations;
pub use rules::relate;
