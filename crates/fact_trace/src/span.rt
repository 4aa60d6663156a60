//! Spans, and items with their spans.

use ix_base::{List, OwnName, Text};

/// Some bytes of a page: the page's name, the offset of the first, and the offset behind the last.
#[derive(Debug)]
pub struct Span {
    pub page: Text,
    pub start: u64,
    pub end: u64,
}

impl Drop for Span {
    fn drop(self) {
        let Span {
            page: _,
            start: _,
            end: _,
        } = self;
    }
}

/// An item: the name of its page, its offset there, its name, whether it is nil, and where its text stands.
#[derive(Debug)]
pub struct Traced {
    pub page: Text,
    pub offset: u64,
    pub name: OwnName,
    pub nil: bool,
    pub spans: List<Span>,
}

impl Drop for Traced {
    fn drop(self) {
        let Traced {
            page: _,
            offset: _,
            name: _,
            nil: _,
            spans: _,
        } = self;
    }
}
