//! Pages of a tracer.

use ix_base::{Element, Text};

/// A page: its name, its bytes, and the root of its tree.
pub(crate) struct Page<'a> {
    pub name: Text,
    pub bytes: &'a [u8],
    pub root: &'a Element<'a>,
}

impl Drop for Page<'_> {
    fn drop(self) {
        let Page {
            name: _,
            bytes: _,
            root: _,
        } = self;
    }
}
