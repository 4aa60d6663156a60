//! A session, from its script up to what is due of it.
ghost use Rattle.std.specs.Prelude.{◌≡◌, ◌+◌, ◌^◌, ◌<◌, ◌≤◌, length, IfErr, IfOk, OnOk};
ghost use Rattle.ix_base.specs.declared.limits.TheConstants.{LONGEST_NAME};
ghost use Rattle.page_session.specs.Course.{names_read};
ghost use Rattle.page_session.specs.Sources.{source_told};
ghost use Rattle.ixds_run.specs.ScriptRuns.{AreLines, IsEnded, IsFollowed, IsSilent, OfLines, WhyUnfollowed};
ghost use Rattle.page_verdicts.specs.Gains.{GainsStarts};

use crate::due::Due;
use crate::follow::{due_of_line, follow_line};
use bumpalo::Bump;
use ix_base::{PageSource, Rule, Text};
use page_session::laws::lines_by_calls;
use page_session::reading::ReadError;
use page_session::{Script, ScriptLine, Session, read_script};
use page_verdicts::{Stopped, cannot_read};
use std::alloc::Global;

/// Follows the lines of a script with a session of their own, up to what is due at their end.
fn follow_lines<P: PageSource>(
    alloc: Global,
    base: &str,
    script: &str,
    lines: &[ScriptLine],
    pages: &mut P,
) -> Result<Due, Stopped>
    requires count { P.faults pages.old + 1 < 2 ^ 64 }
    requires lines { AreLines lines.now }
    ensures due { IfOk result (λ due. OfLines (P.page pages.old) lines.now
        (IsEnded base.now script.now lines.now (P.starts pages.old) (P.starts pages.new) due)) }
    ensures silent { IfOk result IsSilent }
    ensures starts { OfLines (P.page pages.old) lines.now
        (λ bs. GainsStarts (names_read lines.now bs) (P.starts pages.old) (P.starts pages.new)) }
    ensures ok { OnOk result (P.faults pages.new ≡ P.faults pages.old) }
    ensures stopped { IfErr result (WhyUnfollowed lines.now (source_told P.PageSource pages.old) (source_told P.PageSource pages.new)) }
    ensures pages { P.page pages.new ≡ P.page pages.old }
    ensures numbers { P.numbers pages.new ≡ P.numbers pages.old }
{
    lines_by_calls();
    let arena = Bump::new(alloc);
    let Ok(mut session) = Session::new(alloc, &arena, base) else {
        return Err(Stopped::NoMemory);
    };
    let Ok(mut text) = Text::of(alloc, "") else {
        return Err(Stopped::NoMemory);
    };
    for line in lines {
        match follow_line(alloc, &mut session, &mut text, script, line, pages) {
            Ok(None) => {}
            Ok(Some(due)) => return Ok(due),
            Err(why) => return Err(why),
        }
    }
    unreachable!()
}

/// Reads a script and follows it, up to what is due at its end. The line for the script is made before it is asked for.
pub fn follow<P: PageSource>(
    alloc: Global,
    base: &str,
    script: &str,
    pages: &mut P,
) -> Result<Due, Stopped>
    requires count { P.faults pages.old + 1 < 2 ^ 64 }
    requires name { length script.now ≤ LONGEST_NAME }
    ensures { IsFollowed base.now script.now (source_told P.PageSource pages.old) (source_told P.PageSource pages.new) result }
{
    let Ok(line) = cannot_read(alloc, script) else {
        return Err(Stopped::NoMemory);
    };
    match read_script(alloc, script, pages) {
        Err(ReadError::Failed) => Err(Stopped::Failed(line)),
        Err(ReadError::NoMemory) => Err(Stopped::NoMemory),
        Ok(Script::Bad(at)) => match due_of_line(alloc, script, Rule::X1, at) {
            Ok(due) => Ok(due),
            Err(_) => Err(Stopped::NoMemory),
        },
        Ok(Script::Good(lines)) => follow_lines(alloc, base, script, lines.as_slice(), pages),
    }
}
