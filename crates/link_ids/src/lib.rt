//! Which attributes of which elements name ids, and the ids that they name.
#![tactic(auto)]

mod attributes;
mod ids;
mod relationship_ids;
mod words;

pub use attributes::{LinkAttribute, attributes_of, list_at, single_at};
pub use ids::{continued_at, id_at, tuple_id_at, tuple_ref};
pub use relationship_ids::{from_ids, to_ids};
pub use words::ids_in;
