//! Writing what is due.
ghost use Rattle.std.specs.Prelude.{◌≡◌, ◌⊎◌, ◌+◌, ◌^◌, ◌<◌, ◌∷◌, [], map, Option, None, Some, option_map, OnOk, OnErr, IfSome, IsTrue, length};
ghost use Rattle.ix_base.specs.Outside.{TextGainsFront};
ghost use Rattle.page_verdicts.specs.Gains.{GainsAll, GainsCut, GainsPart, GainsText, words_asked};
ghost use Rattle.ixds_run.specs.DueTables.{ready, status_of, targets_due};
ghost use Rattle.ixds_run.specs.declared.status.Status.TheVariants as status;

use crate::Status;
use crate::due::{Due, DueTarget};
use instance_out::write;
use ix_base::{Failed, TargetSink, TextSink};

/// Writes a target.
fn put_target<S: TargetSink>(target: &DueTarget, dir: &str, sink: &mut S) -> Result<(), Failed>
    requires { S.faults sink.old + 1 < 2 ^ 64 }
    ensures ok { OnOk result (GainsAll (ready dir.now target.now ∷ []) (S.targets sink.old) (S.targets sink.new)) }
    ensures err { OnErr result (GainsCut (ready dir.now target.now) (S.targets sink.old) (S.targets sink.new)) }
    ensures faults { OnOk result (S.faults sink.new ≡ S.faults sink.old) }
    ensures failed { OnErr result (S.faults sink.old < S.faults sink.new) }
    ensures last { OnErr result (IsTrue (S.last_failed sink.new)) }
    ensures numbers { S.numbers sink.new ≡ S.numbers sink.old }
    ensures words { IfSome (S.asked sink.new) (λ w. w ≡ (dir.now, target.now.name)) }
    ensures len { S.asked_len sink.new ≡ length dir.now + length target.now.name }
{
    sink.begin(dir, target.name.as_str())?;
    write(&target.prepared, sink)?;
    sink.finish()
}

/// Writes targets, one behind another.
fn put_targets<S: TargetSink>(targets: &[DueTarget], dir: &str, sink: &mut S) -> Result<(), Failed>
    requires { S.faults sink.old + 1 < 2 ^ 64 }
    ensures ok { OnOk result (GainsAll (map (ready dir.now) targets.now) (S.targets sink.old) (S.targets sink.new)) }
    ensures err { OnErr result (GainsPart (map (ready dir.now) targets.now) (S.targets sink.old) (S.targets sink.new)
        (words_asked S.TargetSink sink.new)) }
    ensures faults { OnOk result (S.faults sink.new ≡ S.faults sink.old) }
    ensures failed { OnErr result (S.faults sink.old < S.faults sink.new) }
    ensures last { OnErr result (IsTrue (S.last_failed sink.new)) }
    ensures numbers { S.numbers sink.new ≡ S.numbers sink.old }
    ensures none { targets.now ≡ [] → sink.new ≡ sink.old }
{
    for target in targets {
        put_target(target, dir, sink)?;
    }
    Ok(())
}

/// Writes the targets that are due, where there is a directory word.
fn put_due<S: TargetSink>(due: &Due, dir: Option<&str>, sink: &mut S) -> Result<(), Failed>
    requires { S.faults sink.old + 1 < 2 ^ 64 }
    ensures ok { OnOk result (GainsAll (targets_due (option_map (λ s. s.now) dir.entry) due.now)
        (S.targets sink.old) (S.targets sink.new)) }
    ensures err { OnErr result (GainsPart (targets_due (option_map (λ s. s.now) dir.entry) due.now)
        (S.targets sink.old) (S.targets sink.new)
        (words_asked S.TargetSink sink.new)) }
    ensures faults { OnOk result (S.faults sink.new ≡ S.faults sink.old) }
    ensures failed { OnErr result (S.faults sink.old < S.faults sink.new) }
    ensures last { OnErr result (IsTrue (S.last_failed sink.new)) }
    ensures numbers { S.numbers sink.new ≡ S.numbers sink.old }
    ensures no_dir { dir.entry ≡ None → sink.new ≡ sink.old }
    ensures none { due.now.targets.items ≡ [] → sink.new ≡ sink.old }
{
    match dir {
        Some(dir) => put_targets(due.targets.as_slice(), dir, sink),
        None => Ok(()),
    }
}

/// Writes the targets that are due, and then the text, unless that is empty.
pub fn deliver<S: TargetSink, T: TextSink>(
    due: &Due,
    dir: Option<&str>,
    sink: &mut S,
    out: &mut T,
) -> Status
    requires sink { S.faults sink.old + 1 < 2 ^ 64 }
    requires out { T.faults out.old + 1 < 2 ^ 64 }
    ensures either { (result ≡ status_of due.now.is_broken) ⊎ (result ≡ Status.WriteFault) }
    ensures whole { result ≡ status_of due.now.is_broken
        → GainsAll (targets_due (option_map (λ s. s.now) dir.entry) due.now) (S.targets sink.old) (S.targets sink.new)
        × GainsText due.now.text (T.taken out.old) (T.taken out.new)
        × (S.faults sink.new ≡ S.faults sink.old) × (T.faults out.new ≡ T.faults out.old) }
    ensures cause { result ≡ Status.WriteFault
        → (S.faults sink.old < S.faults sink.new) ⊎ (T.faults out.old < T.faults out.new) }
    ensures cut { result ≡ Status.WriteFault → S.faults sink.old < S.faults sink.new
        → IsTrue (S.last_failed sink.new) × (out.new ≡ out.old)
        × GainsPart (targets_due (option_map (λ s. s.now) dir.entry) due.now) (S.targets sink.old) (S.targets sink.new)
        (words_asked S.TargetSink sink.new) }
    ensures front { result ≡ Status.WriteFault → S.faults sink.new ≡ S.faults sink.old
        → IsTrue (T.last_failed out.new)
        × GainsAll (targets_due (option_map (λ s. s.now) dir.entry) due.now) (S.targets sink.old) (S.targets sink.new)
        × TextGainsFront due.now.text (T.taken out.old) (T.taken out.new) }
    ensures numbers { (S.numbers sink.new ≡ S.numbers sink.old) × (T.numbers out.new ≡ T.numbers out.old) }
    ensures still { (dir.entry ≡ None → sink.new ≡ sink.old) × (due.now.targets.items ≡ [] → sink.new ≡ sink.old)
        × (due.now.text ≡ [] → out.new ≡ out.old) }
{
    if put_due(due, dir, sink).is_err() {
        return Status::WriteFault;
    }
    if due.text.as_str().is_empty() {
        return due.status();
    }
    match out.put(due.text.as_str().as_bytes()) {
        Ok(()) => due.status(),
        Err(_) => Status::WriteFault,
    }
}
