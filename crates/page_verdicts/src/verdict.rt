//! Verdicts on the pages of a command.
ghost use Rattle.std.specs.Prelude.{◌≡◌, ℕ, List, IfOk, false};
ghost use Rattle.command_words.specs.Commands.{IsGiven, pages_of};
ghost use Rattle.page_verdicts.specs.CommandKinds.{is_session, keeps_pages};
ghost use Rattle.page_verdicts.specs.PageReads.{IsRead, IsSound};
ghost use Rattle.page_verdicts.specs.Verdicts.{AreWritable, CommandMakes, verdict_of};
ghost use Rattle.target_contents.specs.SetOutcomes.{CanBeWritten};

use crate::judge::judge;
use crate::plain::shown;
use crate::read_pages::Forest;
use crate::trace::traced;
use bumpalo::Bump;
use command_words::Command;
use ix_base::{List, NoMemory, Report, Text};
use std::alloc::Global;
use targets::{Outcome, Target};

/// What the pages of a command come to.
#[derive(Drop)]
pub enum Verdict {
    /// They break rules, of the first class that has any.
    Reported(Report),
    /// The targets that they mark, in the byte order of their names.
    Extracted(List<Target>),
    /// A text that is made of them.
    Printed(Text),
}

/// The outcome of a set of pages, as what they come to.
pub fn verdict_of(outcome: Outcome) -> Verdict
    ensures value { result ≡ verdict_of outcome }
    ensures written { CanBeWritten outcome → AreWritable result }
{
    match outcome {
        Outcome::Broken(report) => Verdict::Reported(report),
        Outcome::Whole(targets) => Verdict::Extracted(targets),
    }
}

/// What the pages of a command come to, which were read or made.
pub fn verdict_from<'a>(
    alloc: Global,
    arena: &'a Bump,
    command: &Command,
    forest: Forest<'a>,
) -> Result<Verdict, NoMemory>
    requires given { IsGiven command.now }
    requires session { is_session command.now ≡ false }
    requires sound { IsSound (pages_of command.now) forest }
    requires keeps { forest.keeps ≡ keeps_pages command.now }
    requires read { (bs : List (List ℕ)) × IsRead bs forest }
    ensures makes { IfOk result (λ v. (bs : List (List ℕ)) → IsRead bs forest.entry → CommandMakes command.now bs v) }
    ensures written { IfOk result AreWritable }
{
    let names = command.names(alloc)?;
    let names = names.as_slice();
    let Some(base) = command.base() else {
        return shown(alloc, names, forest);
    };
    match command {
        Command::Trace(_, _) => traced(alloc, arena, base, names, forest),
        _ => Ok(verdict_of(judge(alloc, arena, base, names, forest)?)),
    }
}
