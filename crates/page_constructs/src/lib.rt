//! The constructs of a page: what each is, where it ends, and what it means.
#![tactic(auto)]

mod kind;
mod meaning;
mod room;
mod size;
mod token;
mod written;

pub use kind::{Kind, behind_first, kind_of, starts};
pub use meaning::meant;
pub use room::TagRoom;
pub use size::{End, Sought, unsought, whole_size};
pub use token::{Attribute, Tag, Token};
pub use written::Written;
