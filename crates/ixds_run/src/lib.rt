//! The top call: from the words of a command line to an exit status.
#![tactic(auto)]

ghost use Rattle.std.specs.Prelude.{◌≡◌, ◌+◌, ◌^◌, ◌<◌};
ghost use Rattle.ixds_run.specs.Answers.{outside};
ghost use Rattle.command_words.specs.Commands.{command_of};
ghost use Rattle.ixds_run.specs.SessionAnswers.{Answered};

mod answer;
mod deliver;
mod due;
mod follow;
pub mod laws;
mod prepare;
mod report;
mod session;
mod status;
mod summary;
mod usage;

use answer::answer;
pub use command_words::{Command, command_of};
use ix_base::{PageSource, TargetSink, Text, TextSink};
pub use sample_page::sample_pages;
pub use status::Status;
use std::alloc::Global;
use usage::put_usage;

/// Runs the words of a command line, without the program's name.
///
/// The order of work is fixed: the words, then reading, then the rules, then writing. All memory is taken before the
/// first call of `sink` or of `out`. A call of the outside that fails ends the run, but for the line after a read fault.
pub fn run<P: PageSource, S: TargetSink, T: TextSink>(
    alloc: Global,
    words: &[Text],
    pages: &mut P,
    sink: &mut S,
    out: &mut T,
) -> Status
    requires pages { P.faults pages.old + 1 < 2 ^ 64 }
    requires sink { S.faults sink.old + 1 < 2 ^ 64 }
    requires out { T.faults out.old + 1 < 2 ^ 64 }
    ensures { Answered (command_of words.now)
        (outside P.PageSource S.TargetSink T.TextSink pages.old sink.old out.old)
        (outside P.PageSource S.TargetSink T.TextSink pages.new sink.new out.new)
        (pages.new ≡ pages.old) (sink.new ≡ sink.old) (out.new ≡ out.old) result }
{
    match command_of(alloc, words) {
        Err(_) => Status::NoMemory,
        Ok(None) => put_usage(out),
        Ok(Some(command)) => answer(alloc, &command, pages, sink, out),
    }
}
