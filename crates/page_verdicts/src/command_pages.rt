//! The pages of a command.
ghost use Rattle.std.specs.Prelude.{◌≡◌, ◌+◌, ◌^◌, ◌<◌, ◌≤◌, false, IfOk};
ghost use Rattle.ix_base.specs.declared.limits.TheConstants.{MOST_FACTS};
ghost use Rattle.page_session.specs.Sources.{source_told};
ghost use Rattle.page_verdicts.specs.SourceCalls.{AreGathered};
ghost use Rattle.command_words.specs.Commands.{IsGiven, pages_of};
ghost use Rattle.page_verdicts.specs.CommandKinds.{keeps_pages};
ghost use Rattle.page_verdicts.specs.CommandBytes.{AreSome, bytes_told};
ghost use Rattle.page_verdicts.specs.PageReads.{IsRead, IsSound};
ghost use Rattle.sample_page.specs.Sample.{sample_bytes, sample_names};

use crate::made_pages::build_all;
use crate::read_pages::{Forest, Stopped, read_all};
use bumpalo::Bump;
use command_words::Command;
use ix_base::{NoMemory, PageSource};
use sample_page::sample_pages;
use std::alloc::Global;
use std::slice::from_ref;

/// Makes the pages of a sample of so many facts, and builds them.
fn sampled<'a>(alloc: Global, arena: &'a Bump, facts: u32) -> Result<Forest<'a>, NoMemory>
    requires { facts ≤ MOST_FACTS }
    ensures reads { IfOk result (IsRead (sample_bytes facts)) }
    ensures sound { IfOk result (IsSound sample_names) }
    ensures keeps { IfOk result (λ f. f.keeps ≡ false) }
{
    let pages = sample_pages(alloc, facts)?;
    build_all(alloc, arena, pages.as_slice())
}

/// Makes the pages of a sample, and reads those of another command.
pub fn gathered<'a, P: PageSource>(
    alloc: Global,
    arena: &'a Bump,
    command: &Command,
    pages: &mut P,
) -> Result<Forest<'a>, Stopped>
    requires given { IsGiven command.now }
    requires count { P.faults pages.old + 1 < 2 ^ 64 }
    ensures reads { IfOk result (λ f. AreSome (bytes_told (P.page pages.old) command.now) (λ bs. IsRead bs f)) }
    ensures sound { IfOk result (IsSound (pages_of command.now)) }
    ensures keeps { IfOk result (λ f. f.keeps ≡ keeps_pages command.now) }
    ensures gathered { AreGathered command.now (source_told P.PageSource pages.old) (source_told P.PageSource pages.new)
        (pages.new ≡ pages.old) result }
{
    match command {
        Command::Extract(_, _, names) => read_all(alloc, arena, pages, names.as_slice(), false),
        Command::Check(_, names) => read_all(alloc, arena, pages, names.as_slice(), false),
        Command::Plain(name) => read_all(alloc, arena, pages, from_ref(name), false),
        Command::Session(_, _, script) => read_all(alloc, arena, pages, from_ref(script), false),
        Command::Trace(_, names) => read_all(alloc, arena, pages, names.as_slice(), true),
        Command::Sample(facts) => match sampled(alloc, arena, *facts) {
            Ok(forest) => Ok(forest),
            Err(_) => Err(Stopped::NoMemory),
        },
    }
}
