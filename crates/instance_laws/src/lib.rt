//! Laws of canonical texts: the order in which an instance is written, and what its text denotes. Worked rows of the definitions
//! are computed beside them.
#![tactic(auto)]

mod arranged;
mod denotation;

pub use arranged::{arranged_lines, arranged_twice, arranged_writable};
pub use denotation::{canonical_markup, one_content, read_back};
