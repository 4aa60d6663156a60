//! A session over pages that change one at a time.
//!
//! `Session::put` reads a page and keeps its tree, or the first break of its text, under its name; `Session::remove` takes a page
//! away; `Session::answer` tells what the pages that are there come to, as if they were read anew. A put costs what reading its page
//! costs. An answer links the trees anew, and costs what a run over these pages costs without its reading; behind a page that was
//! taken away it copies the trees, which then have other page numbers. What it takes is given back at its end.
//!
//! `read_script` reads a script of a session and tells what it says. The laws tell what sessions stand for after any steps, and what
//! the lines of a script do with them.
#![tactic(auto)]

mod answer;
mod kept;
pub mod laws;
mod put;
pub mod reading;
mod renumbering;
mod root;
mod script;
mod script_reading;
mod session;
pub mod taking;

pub use page_names::is_page_name;
pub use put::PutFault;
pub use renumbering::renumbered;
pub use script::{Line, Script, ScriptLine, parse};
pub use script_reading::read_script;
pub use session::Session;
pub use targets::made;
