//! The setting in which a tree is built.
use bumpalo::Bump;
use std::alloc::Global;

/// What stays the same while a page's tree is built: the allocator, the arena in which its elements lie, the number of the
/// page, and how deep an element may be, the root's depth being 1.
#[derive(Clone, Copy)]
pub(crate) struct Setting<'a> {
    pub alloc: Global,
    pub arena: &'a Bump,
    pub page: u32,
    pub depth: u32,
}
