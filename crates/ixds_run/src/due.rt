//! What is due, ready to be given.
ghost use Rattle.std.specs.Prelude.{◌≡◌, ◌<◌, [], List, ℕ, Option, All, IfOk, None, map, true, false};
ghost use Rattle.instance_lines.specs.Writable.{IsWritable};
ghost use Rattle.ixds_run.specs.DueOutcomes.{instance_lines, default_len, due_of, text_of};
ghost use Rattle.ixds_run.specs.DueTables.{ready_lines, outcome_of, status_of};
ghost use Rattle.page_verdicts.specs.Texts.{summary_of};
ghost use Rattle.page_verdicts.specs.Verdicts.{AreWritable};
ghost use Rattle.page_verdicts.specs.declared.verdict.Verdict.TheVariants.{Extracted, Printed, Reported};
ghost use Rattle.target_contents.specs.declared.outcome.Target.{Target as TargetOf};

use crate::Status;
use crate::report::lines_of;
use crate::summary::summary;
use instance_out::{Prepared, prepare_with_lines};
use ix_base::{List, NoMemory, Report, Text};
use page_verdicts::{Verdict, sample_text};
use std::alloc::Global;
use std::mem;
use targets::Target;

/// A target that is ready to be written.
pub struct DueTarget {
    pub name: Text,
    pub prepared: Prepared,
}

impl Drop for DueTarget {
    fn drop(self) {
        let DueTarget {
            name: _,
            prepared: _,
        } = self;
    }
}

/// What is due: the targets, and then the text.
pub struct Due {
    pub is_broken: bool,
    pub targets: Vec<DueTarget>,
    pub text: Text,
}

impl Drop for Due {
    fn drop(self) {
        let Due {
            is_broken: _,
            targets: _,
            text: _,
        } = self;
    }
}

impl Due {
    /// How a run ends that gives all of it.
    pub fn status(&self) -> Status
        ensures { result ≡ status_of self.now.is_broken }
    {
        if self.is_broken {
            Status::Broken
        } else {
            Status::Done
        }
    }
}

/// A target, ready to be written, with the lines of its facts that it keeps. Its content isn't given back, fact by fact: a run makes
/// targets ready once, right before it writes them and ends.
fn due_target(alloc: Global, target: Target) -> Result<DueTarget, NoMemory>
    requires { IsWritable target.content }
    ensures { IfOk result (λ due. ready_lines due ≡ instance_lines target) }
{
    let (name, content, lines) = target.into_parts();
    let prepared = prepare_with_lines(alloc, &content, lines)?;
    mem::forget(content);
    Ok(DueTarget { name, prepared })
}

/// Targets, ready to be written.
fn prepared(alloc: Global, targets: List<Target>) -> Result<Vec<DueTarget>, NoMemory>
    requires { All (λ t. IsWritable t.content) targets }
    ensures { IfOk result (λ v. map ready_lines v.items ≡ map instance_lines targets) }
{
    let mut ready = Vec::new(alloc);
    for target in targets.into_vec() {
        let due = due_target(alloc, target)?;
        ready.push(due)?;
    }
    Ok(ready)
}

/// How many bytes the instance of the default target has, 0 where there is none.
fn default_len(targets: &[DueTarget]) -> u64
    ensures { result ≡ default_len (map ready_lines targets.now) }
{
    for target in targets {
        if target.name.as_str().is_empty() {
            return target.prepared.len();
        }
    }
    0
}

/// What is told of targets that have this summary and are ready, with the number of a sample.
fn text_of(
    alloc: Global,
    summary: Text,
    ready: &[DueTarget],
    number: Option<u32>,
) -> Result<Text, NoMemory>
    ensures { (ts : List TargetOf) → summary ≡ summary_of ts → map ready_lines ready.now ≡ map instance_lines ts
        → IfOk result (λ t. t ≡ text_of number ts) }
{
    match number {
        None => Ok(summary),
        Some(number) => {
            let len = default_len(ready);
            sample_text(alloc, number, summary.as_str(), len)
        }
    }
}

/// What is due of targets.
fn due_of_targets(
    alloc: Global,
    targets: List<Target>,
    number: Option<u32>,
) -> Result<Due, NoMemory>
    requires { All (λ t. IsWritable t.content) targets }
    ensures due { IfOk result (λ due. (dir : Option (List ℕ)) → outcome_of dir due ≡ due_of dir number (Extracted targets)) }
    ensures whole { IfOk result (λ due. due.is_broken ≡ false) }
{
    let told = summary(alloc, targets.as_slice())?;
    let ready = prepared(alloc, targets)?;
    let text = text_of(alloc, told, ready.as_slice(), number)?;
    Ok(Due {
        is_broken: false,
        targets: ready,
        text,
    })
}

/// What is due of a report.
fn due_of_report(alloc: Global, report: &Report) -> Result<Due, NoMemory>
    ensures due { IfOk result (λ due. (dir : Option (List ℕ)) → outcome_of dir due ≡ due_of dir None (Reported report.now)) }
    ensures none { IfOk result (λ due. due.targets.items ≡ []) }
{
    let text = lines_of(alloc, report)?;
    Ok(Due {
        is_broken: true,
        targets: Vec::new(alloc),
        text,
    })
}

/// What is due of a text.
fn due_of_text(alloc: Global, text: Text) -> Due
    ensures due { (dir : Option (List ℕ)) (number : Option ℕ) → outcome_of dir result ≡ due_of dir number (Printed text) }
    ensures whole { result.is_broken ≡ false }
{
    Due {
        is_broken: false,
        targets: Vec::new(alloc),
        text,
    }
}

/// What is due of what pages come to, where this is the number of a sample.
pub fn ready(alloc: Global, verdict: Verdict, number: Option<u32>) -> Result<Due, NoMemory>
    requires { AreWritable verdict }
    ensures due { IfOk result (λ due. (dir : Option (List ℕ)) → outcome_of dir due ≡ due_of dir number verdict) }
    ensures none { IfOk result (λ due. due.is_broken ≡ true → due.targets.items ≡ []) }
{
    match verdict {
        Verdict::Reported(report) => due_of_report(alloc, &report),
        Verdict::Extracted(targets) => due_of_targets(alloc, targets, number),
        Verdict::Printed(text) => Ok(due_of_text(alloc, text)),
    }
}
