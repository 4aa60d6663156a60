//! The characters of a page, from its bytes in any pieces.
#![tactic(auto)]

mod feed;
mod fronts;
pub mod laws;

pub use feed::Feed;
use thiserror::Error;

/// A character of a page, and the offset of its first byte.
#[derive(Clone, Copy, Debug, PartialEq, Eq)]
pub struct Mark {
    pub ch: char,
    /// In bytes from the front of the page; a byte order mark counts.
    pub offset: u64,
}

/// Plain characters of a page, one behind another, and the offset of the first.
#[derive(Clone, Copy, Debug)]
pub struct Run<'p> {
    pub text: &'p str,
    pub offset: u64,
}

/// Why the characters of a page end before its bytes do.
#[derive(Clone, Copy, Debug, PartialEq, Eq, Error)]
pub enum TextFault {
    /// Bytes that aren't UTF-8, the first of which stands at the offset.
    #[error("bytes that are not UTF-8")]
    BadBytes { offset: u64 },
    /// A character that XML 1.0 (fifth edition), section 2.2, doesn't allow, whose first byte stands at the offset.
    #[error("a character that XML does not allow")]
    BadChar { offset: u64 },
    #[error("no memory is left")]
    NoMemory,
}
