//! What the constructs of a page do on the way through an element.
ghost use Rattle.std.specs.Prelude.{◌≡◌, ◌==◌, ◌-◌, ◌≤◌, length, option_map, slice_index};
ghost use Rattle.page_tree.specs.Reaches.{StandsAt, reach_at, reaches};
ghost use Rattle.fact_trace.specs.Walks.{IsConstruct, IsWhole, move_there, stepped};
ghost use Rattle.fact_trace.specs.Walks as walks;

use page_tree::{Construct, Kind, construct_at};

/// What a construct does on the way through an element: the tag at an offset opens an element, an end tag closes the innermost,
/// a text, a reference or a section says something, and all else is passed over.
#[derive(Clone, Copy)]
pub(crate) enum Move {
    Opens(u64),
    Closes,
    Says,
    Passes,
}

/// A construct: what it does, and where it starts and ends.
#[derive(Clone, Copy)]
pub(crate) struct Step {
    pub does: Move,
    pub start: u64,
    pub end: u64,
}

/// Whether a tag that ends at an offset ends with `/>`.
fn is_slashed(bytes: &[u8], end: u64) -> bool
    requires low { 2 ≤ end }
    requires high { end ≤ length bytes.now }
    ensures { result ≡ (slice_index bytes.now (end - 2) == 47) }
{
    bytes[end as usize - 2] == b'/'
}

/// What a tag that isn't an end tag does.
fn tag_move(bytes: &[u8], tag: Construct) -> Move
    requires low { 2 ≤ tag.end }
    requires high { tag.end ≤ length bytes.now }
    ensures { result ≡ walks.tag_move (slice_index bytes.now (tag.end - 2) == 47) tag.start }
{
    if is_slashed(bytes, tag.end) {
        Move::Passes
    } else {
        Move::Opens(tag.start)
    }
}

/// What a construct of a page does.
fn move_of(bytes: &[u8], construct: Construct) -> Move
    requires { IsConstruct bytes.now construct }
    ensures { result ≡ move_there bytes.now construct.start }
{
    match construct.kind {
        Kind::StartTag => tag_move(bytes, construct),
        Kind::EndTag => Move::Closes,
        Kind::Text | Kind::Reference | Kind::Cdata => Move::Says,
        _ => Move::Passes,
    }
}

/// The construct that starts at an offset of a page, or none at the end of the last one.
pub(crate) fn step_at(bytes: &[u8], from: u64) -> Option<Step>
    requires whole { IsWhole bytes.now }
    requires stands { StandsAt bytes.now from }
    ensures { result ≡ option_map stepped (reach_at (reaches bytes.now) from) }
{
    let construct = construct_at(bytes, from)?;
    Some(Step {
        does: move_of(bytes, construct),
        start: construct.start,
        end: construct.end,
    })
}
