//! The outside of the program as files and standard output: pages that are read from files, targets that are written into a folder,
//! texts that are put to a writer, and what a person is told of one of them that failed.
#![tactic(auto)]

mod blamed;
mod cause;
mod folder;
mod pages;
mod parts;
mod system;
mod target_files;
mod text;
mod writing;

pub use blamed::Blamed;
pub use cause::Cause;
pub use folder::Folder;
pub use pages::{FilePages, Opener};
pub use system::SystemFolder;
pub use target_files::FileTargets;
pub use text::StdoutText;
pub use writing::put_all;
