//! The way through an element, from construct to construct.
ghost use Rattle.std.specs.Prelude.{◌≡◌, ◌++◌, ◌<◌, ◌+◌, ◌^◌, OnOk, map};
ghost use Rattle.ix_base.specs.Sound.{Rise};
ghost use Rattle.page_tree.specs.Reaches.{StandsAt, reaches};
ghost use Rattle.fact_trace.specs.Spans as tracing;
ghost use Rattle.fact_trace.specs.Spans.{heard, is_among, span_of};
ghost use Rattle.fact_trace.specs.Walks.{IsFrontPassed, IsWhole, from_on, heard_at_step};

use crate::moves::{Move, Step, step_at};
use crate::page::Page;
use crate::span::Span;
use ix_base::{List, NoMemory, Text};
use std::alloc::Global;

/// Whether an offset is among rising ones, none of which before the next was below it. Those that are below are passed.
fn is_next(offsets: &[u64], next: &mut usize, at: u64) -> bool
    requires rise { Rise offsets.now }
    requires passed { IsFrontPassed offsets.now next.old at }
    ensures there { result ≡ is_among offsets.now at }
    ensures passed { IsFrontPassed offsets.now next.new at }
{
    while *next < offsets.len() && offsets[*next] < at {
        *next += 1;
    }
    *next < offsets.len() && offsets[*next] == at
}

/// How many of the innermost open elements stand in one that is left out, where one more opens.
fn muted_in(is_left_out: bool, muted: u64) -> u64
    requires { muted + 1 < 2 ^ 64 }
    ensures { result ≡ tracing.muted_in is_left_out muted }
{
    if is_left_out || muted > 0 {
        muted + 1
    } else {
        0
    }
}

/// Adds a construct that says something as a span, outside the elements that are left out.
fn push_heard(
    alloc: Global,
    page: &Page<'_>,
    step: Step,
    muted: u64,
    spans: &mut List<Span>,
) -> Result<(), NoMemory>
    ensures { OnOk result (spans.new ≡ spans.old ++ heard_at_step page.now.name step muted) }
{
    if muted > 0 {
        return Ok(());
    }
    spans.push(Span {
        page: Text::of(alloc, page.name.as_str())?,
        start: step.start,
        end: step.end,
    })
}

/// Adds what is heard from behind the start tag of an element to its end tag, outside the elements in it that are left out,
/// whose offsets these are.
pub(crate) fn push_way(
    alloc: Global,
    page: &Page<'_>,
    left_out: &[u64],
    from: u64,
    spans: &mut List<Span>,
) -> Result<(), NoMemory>
    requires whole { IsWhole page.now.bytes.now }
    requires stands { StandsAt page.now.bytes.now from }
    requires rise { Rise left_out.now }
    ensures { OnOk result (spans.new ≡ spans.old
        ++ map (span_of page.now.name) (heard (is_among left_out.now) 0 0 (from_on (reaches page.now.bytes.now) from))) }
{
    let mut at = from;
    let mut open: u64 = 0;
    let mut muted: u64 = 0;
    let mut next: usize = 0;
    'way: while let Some(step) = step_at(page.bytes, at) {
        match step.does {
            Move::Opens(start) => {
                let is_left_out = is_next(left_out, &mut next, start);
                muted = muted_in(is_left_out, muted);
                open += 1;
            }
            Move::Closes => {
                if open == 0 {
                    return Ok(());
                }
                open -= 1;
                muted = muted.saturating_sub(1);
            }
            Move::Says => push_heard(alloc, page, step, muted, spans)?,
            Move::Passes => {}
        }
        at = step.end;
    }
    Ok(())
}
