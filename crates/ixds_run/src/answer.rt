//! The answer to a command.
ghost use Rattle.std.specs.Prelude.{◌≡◌, ◌⊎◌, ◌+◌, ◌^◌, ◌<◌, IsTrue, Some};
ghost use Rattle.ix_base.specs.Outside.{TextGainsFront};
ghost use Rattle.page_session.specs.Sources.{source_told};
ghost use Rattle.ixds_run.specs.Answers.{outside};
ghost use Rattle.command_words.specs.Commands.{IsGiven};
ghost use Rattle.page_verdicts.specs.Gains.{GainsText};
ghost use Rattle.ixds_run.specs.ReadyTexts.{IsReady};
ghost use Rattle.ixds_run.specs.SessionAnswers.{Answered};

use crate::Status;
use crate::deliver::deliver;
use crate::due::Due;
use crate::prepare::prepared;
use crate::session::follow;
use command_words::Command;
use ix_base::{PageSource, TargetSink, TextSink};
use page_verdicts::Stopped;
use std::alloc::Global;
use std::mem;

/// Follows a command's script, or reads its pages or makes them, and makes ready what is due.
fn made_ready<P: PageSource>(
    alloc: Global,
    command: &Command,
    pages: &mut P,
) -> Result<Due, Stopped>
    requires given { IsGiven command.now }
    requires count { P.faults pages.old + 1 < 2 ^ 64 }
    ensures { IsReady command.now (source_told P.PageSource pages.old) (source_told P.PageSource pages.new)
        (pages.new ≡ pages.old) result }
{
    match command {
        Command::Session(base, _, script) => {
            follow(alloc, base.as_str(), script.as_str(), pages)
        }
        _ => prepared(alloc, command, pages),
    }
}

/// Puts the line of a page that can't be read.
fn put_read_fault<T: TextSink>(line: &[u8], out: &mut T) -> Status
    requires out { T.faults out.old + 1 < 2 ^ 64 }
    ensures either { (result ≡ Status.ReadFault) ⊎ (result ≡ Status.WriteFault) }
    ensures read { result ≡ Status.ReadFault → GainsText line.now (T.taken out.old) (T.taken out.new) }
    ensures quiet { result ≡ Status.ReadFault → T.faults out.new ≡ T.faults out.old }
    ensures cause { result ≡ Status.WriteFault → T.faults out.old < T.faults out.new }
    ensures last { result ≡ Status.WriteFault → IsTrue (T.last_failed out.new) }
    ensures numbers { T.numbers out.new ≡ T.numbers out.old }
    ensures front { result ≡ Status.WriteFault → TextGainsFront line.now (T.taken out.old) (T.taken out.new) }
{
    match out.put(line) {
        Ok(()) => Status::ReadFault,
        Err(_) => Status::WriteFault,
    }
}

/// Answers a command: makes ready what is due, and then gives it. What was due isn't given back: a program ends with its answer.
pub fn answer<P: PageSource, S: TargetSink, T: TextSink>(
    alloc: Global,
    command: &Command,
    pages: &mut P,
    sink: &mut S,
    out: &mut T,
) -> Status
    requires given { IsGiven command.now }
    requires pages { P.faults pages.old + 1 < 2 ^ 64 }
    requires sink { S.faults sink.old + 1 < 2 ^ 64 }
    requires out { T.faults out.old + 1 < 2 ^ 64 }
    ensures { Answered (Some command.now)
        (outside P.PageSource S.TargetSink T.TextSink pages.old sink.old out.old)
        (outside P.PageSource S.TargetSink T.TextSink pages.new sink.new out.new)
        (pages.new ≡ pages.old) (sink.new ≡ sink.old) (out.new ≡ out.old) result }
{
    match made_ready(alloc, command, pages) {
        Err(Stopped::NoMemory) => Status::NoMemory,
        Err(Stopped::Failed(line)) => put_read_fault(line.as_slice(), out),
        Ok(due) => {
            let status = deliver(&due, command.dir(), sink, out);
            mem::forget(due);
            status
        }
    }
}
