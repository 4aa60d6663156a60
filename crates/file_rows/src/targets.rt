//! Targets that are written.
ghost use Rattle.std.specs.Prelude.{◌≡◌, IsTrue, true};

use crate::told::blamed;
use anyhow::Result;
use ix_base::TargetSink;
use ixds_files::{FileTargets, Folder};
use std::alloc::Global;

/// Begins a target and puts a piece, as far as no call fails. It tells whether none did.
fn is_begun<S: TargetSink>(sink: &mut S, dir: &str, target: &str) -> bool
    requires { S.faults sink.old ≡ 0 }
    ensures faults { result ≡ true → S.faults sink.new ≡ 0 }
    ensures opened { result ≡ true → IsTrue (S.is_open sink.new) }
{
    sink.begin(dir, target).is_ok() && sink.put(b"new ").is_ok()
}

/// Writes a target, as far as no call fails. It tells whether none did.
fn is_whole<S: TargetSink>(sink: &mut S, target: &str) -> bool
    requires { S.faults sink.old ≡ 0 }
    ensures { result ≡ true → S.faults sink.new ≡ 0 }
{
    is_begun(sink, "made", target) && sink.put(target.as_bytes()).is_ok() && sink.finish().is_ok()
}

/// Does a step, as far as no call fails. It tells whether none did.
fn is_done<S: TargetSink>(sink: &mut S, step: &str) -> bool
    requires { S.faults sink.old ≡ 0 }
    ensures { result ≡ true → S.faults sink.new ≡ 0 }
{
    let (kind, target) = step.split_once(':').unwrap_or((step, ""));
    match kind {
        "begun" => is_begun(sink, "made", target),
        "lost" => is_begun(sink, "made/missing", target),
        "whole" => is_whole(sink, target),
        _ => false,
    }
}

/// Does steps, up to a call that fails. It tells whether none did.
fn are_done<S: TargetSink>(sink: &mut S, steps: &str) -> bool
    requires { S.faults sink.old ≡ 0 }
{
    'steps: for step in steps.split(' ') {
        if !is_done(sink, step) {
            return false;
        }
    }
    true
}

/// What is told of targets that are written in a folder.
pub(crate) fn written<F: Folder + Drop>(alloc: Global, folder: F, steps: &str) -> Result<String> {
    let mut sink = FileTargets::new(alloc, folder);
    let is_done = are_done(&mut sink, steps);
    blamed(alloc, &sink, is_done)
}
