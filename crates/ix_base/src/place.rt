//! Places in pages.

/// A page by its number, and the offset of a byte in it.
#[derive(Clone, Copy, Debug, PartialEq, Eq)]
pub struct Place {
    pub page: u32,
    pub offset: u64,
}
