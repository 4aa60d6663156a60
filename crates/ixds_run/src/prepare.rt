//! A command whose pages are read or made, up to what is due of them.
ghost use Rattle.std.specs.Prelude.{◌≡◌, ◌+◌, ◌^◌, ◌<◌, false, ℕ, List, IfOk};
ghost use Rattle.page_session.specs.Sources.{source_told};
ghost use Rattle.command_words.specs.Commands.{IsGiven, pages_of};
ghost use Rattle.page_verdicts.specs.CommandKinds.{is_session, keeps_pages};
ghost use Rattle.ixds_run.specs.DueTables.{IsDueFrom};
ghost use Rattle.ixds_run.specs.ScriptRuns.{IsSilent};
ghost use Rattle.page_verdicts.specs.PageReads.{IsRead, IsSound};
ghost use Rattle.ixds_run.specs.ReadyTexts.{IsPrepared};

use crate::due::{Due, ready};
use crate::laws::{said_in_any_order, said_read_back};
use bumpalo::Bump;
use command_words::Command;
use ix_base::{NoMemory, PageSource};
use page_verdicts::{Forest, Stopped, gathered, verdict_from};
use std::alloc::Global;

/// What is due from a command whose pages were read or made.
fn due_from<'a>(
    alloc: Global,
    arena: &'a Bump,
    command: &Command,
    forest: Forest<'a>,
) -> Result<Due, NoMemory>
    requires given { IsGiven command.now }
    requires session { is_session command.now ≡ false }
    requires sound { IsSound (pages_of command.now) forest }
    requires keeps { forest.keeps ≡ keeps_pages command.now }
    requires read { (bs : List (List ℕ)) × IsRead bs forest }
    ensures due { IfOk result (λ due. (bs : List (List ℕ)) → IsRead bs forest.entry → IsDueFrom command.now bs due) }
    ensures none { IfOk result IsSilent }
{
    said_read_back();
    said_in_any_order();
    let made = verdict_from(alloc, arena, command, forest)?;
    ready(alloc, made, command.number())
}

/// Reads the command's pages, or makes them, and makes ready what is due of them.
pub fn prepared<P: PageSource>(
    alloc: Global,
    command: &Command,
    pages: &mut P,
) -> Result<Due, Stopped>
    requires given { IsGiven command.now }
    requires session { is_session command.now ≡ false }
    requires count { P.faults pages.old + 1 < 2 ^ 64 }
    ensures { IsPrepared command.now (source_told P.PageSource pages.old) (source_told P.PageSource pages.new)
        (pages.new ≡ pages.old) result }
{
    let arena = Bump::new(alloc);
    let forest = gathered(alloc, &arena, command, pages)?;
    match due_from(alloc, &arena, command, forest) {
        Ok(due) => Ok(due),
        Err(_) => Err(Stopped::NoMemory),
    }
}
