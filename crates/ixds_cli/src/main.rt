//! The program `ixds`: it hands the words of the command line to the top call, with files and standard output, and ends
//! with the status code.
#![tactic(auto)]

ghost use Rattle.std.specs.Prelude.{◌≡◌, ◌⊎◌, ◌+◌, ◌^◌, ◌<◌, IfSome, None};
ghost use Rattle.ixds_run.specs.Answers.{outside};
ghost use Rattle.ixds_run.specs.SessionAnswers.{Answered};
ghost use Rattle.ixds_cli.specs.Complaints.{Tells, blame, complaint};
ghost use Rattle.ixds_cli.specs.Endings.{EndsWith};
ghost use Rattle.ixds_cli.specs.Words.{words_in, command_in};

mod complaint;
mod words;
mod wrong;

use complaint::complain;
use ix_base::{PageSource, TargetSink, TextSink};
use ixds_files::{Blamed, FilePages, FileTargets, StdoutText, SystemFolder};
use ixds_run::{Status, run};
use std::alloc::Global;
use std::env::Args;
use std::io::Write;
use std::process::ExitCode;
use std::{env, io};
use words::words_of;

fn ended(status: Status) -> ExitCode
    ensures { EndsWith result status }
{
    ExitCode::from(status.code())
}

/// Runs the words that the system hands over, the program's name first, says on standard error why it ended, where it wasn't
/// done and broke no rule, and ends. Words that aren't text give no command, as no words do. `main` makes the objects and calls
/// it, and can't have clauses itself.
fn run_words<P: PageSource + Blamed, S: TargetSink + Blamed, T: TextSink + Blamed, E: Write>(
    alloc: Global,
    handed: io::Result<Args>,
    pages: &mut P,
    sink: &mut S,
    out: &mut T,
    err: &mut E,
) -> ExitCode
    requires pages { P.faults pages.old + 1 < 2 ^ 64 }
    requires sink { S.faults sink.old + 1 < 2 ^ 64 }
    requires out { T.faults out.old + 1 < 2 ^ 64 }

    // What a run of these words answers, with the code of its status.
    ensures answers { (status : Status) × EndsWith result status × Answered (command_in handed)
        (outside P.PageSource S.TargetSink T.TextSink pages.old sink.old out.old)
        (outside P.PageSource S.TargetSink T.TextSink pages.new sink.new out.new)
        (pages.new ≡ pages.old) (sink.new ≡ sink.old) (out.new ≡ out.old) status }

    // Where the words can't be had, memory is wanting, and nothing is done.
    ensures no_words { words_in handed ≡ None → EndsWith result Status.NoMemory
        × (pages.new ≡ pages.old) × (sink.new ≡ sink.old) × (out.new ≡ out.old) }

    // Which file is blamed, and why; a run that is done or broke a rule tells nothing.
    ensures told { (status : Status) × EndsWith result status
        × IfSome (complaint status (blame P.Blamed pages.new) (blame S.Blamed sink.new) (blame T.Blamed out.new))
        (Tells (E.contents err.old) (E.contents err.new)) }
    ensures quiet { (status : Status) × EndsWith result status
        × ((status ≡ Status.Done) ⊎ (status ≡ Status.Broken) → err.new ≡ err.old) }
{
    match words_of(alloc, handed) {
        Ok(words) => {
            let status = run(alloc, words.as_slice(), pages, sink, out);
            complain(alloc, words.as_slice(), status, pages, sink, out, err);
            ended(status)
        }
        Err(_) => {
            complain(alloc, &[], Status::NoMemory, pages, sink, out, err);
            ended(Status::NoMemory)
        }
    }
}

fn main(rt: HostRuntime) -> ExitCode {
    let alloc = rt.alloc();
    let mut pages = FilePages::new(SystemFolder::new(&rt));
    let mut sink = FileTargets::new(alloc, SystemFolder::new(&rt));
    let mut out = StdoutText::new(io::writer(&rt));
    let mut err = rt.stderr().lock();
    run_words(
        alloc,
        env::args(&rt),
        &mut pages,
        &mut sink,
        &mut out,
        &mut err,
    )
}
