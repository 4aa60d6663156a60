//! Following a script line by line.
ghost use Rattle.std.specs.Prelude.{◌≡◌, ◌+◌, ◌^◌, ◌<◌, ◌≤◌, ◌++◌, ℕ, List, None, Some, length, IfOk, OnOk};
ghost use Rattle.ix_base.specs.declared.limits.TheConstants.{LONGEST_NAME};
ghost use Rattle.page_session.specs.HandedPages.{Handed};
ghost use Rattle.page_session.specs.Sessions.{StandsFor, base_of};
ghost use Rattle.page_session.specs.Sources.{source_told};
ghost use Rattle.page_session.specs.declared.script.Line.TheVariants as script_line;
ghost use Rattle.ixds_run.specs.DueOutcomes.{due_of};
ghost use Rattle.ixds_run.specs.DueTables.{outcome_of};
ghost use Rattle.page_verdicts.specs.Verdicts.{verdict_of};
ghost use Rattle.ixds_run.specs.ScriptRuns.{IsLineFollowed, IsShort, IsSilent, ended};
ghost use Rattle.ixds_run.specs.SessionOutcomes.{IsChecked, IsExtracted, broken_line};

use crate::due::{Due, ready};
use crate::laws::said_read_back;
use crate::report::{line_of, lines_of};
use crate::summary::summary;
use ix_base::{Breach, NoMemory, PageSource, Rule, Text};
use page_session::laws::lines_by_calls;
use page_session::{Line, PutFault, ScriptLine, Session};
use page_verdicts::{Stopped, cannot_read, verdict_of};
use std::alloc::Global;
use targets::Outcome;

/// What is due of a rule that a script breaks, at the start of a line.
pub fn due_of_line(alloc: Global, script: &str, rule: Rule, start: u64) -> Result<Due, NoMemory>
    ensures due { IfOk result (λ due. (dir : List ℕ) → outcome_of (Some dir) due ≡ broken_line script.now rule start) }
    ensures silent { IfOk result IsSilent }
{
    let page = Text::of(alloc, script)?;
    let breach = Breach {
        page,
        offset: start,
        rule,
    };
    let text = line_of(alloc, &breach)?;
    Ok(Due {
        is_broken: true,
        targets: Vec::new(alloc),
        text,
    })
}

/// The text that checking pages gives that come to this.
fn told(alloc: Global, outcome: &Outcome) -> Result<Text, NoMemory>
    ensures { IfOk result (λ t. t ≡ (due_of None None (verdict_of outcome.now)).text) }
{
    match outcome {
        Outcome::Broken(report) => lines_of(alloc, report),
        Outcome::Whole(targets) => summary(alloc, targets.as_slice()),
    }
}

/// Adds the text that checking the pages that are there gives.
fn check(alloc: Global, session: &Session<'_>, text: &mut Text) -> Result<(), NoMemory>
    ensures { OnOk result ((pages : List Handed) → StandsFor session.now pages
        → (added : List ℕ) × IsChecked (base_of session.now) pages added × (text.new ≡ text.old ++ added)) }
{
    let outcome = session.answer()?;
    let told = told(alloc, &outcome)?;
    text.push(told.as_str())?;
    Ok(())
}

/// What extracting the pages that are there gives, behind a text.
fn extracted(alloc: Global, session: &Session<'_>, front: &str) -> Result<Due, NoMemory>
    ensures due { IfOk result (λ due. (pages : List Handed) → StandsFor session.now pages
        → (dir : List ℕ) → IsExtracted (base_of session.now) dir pages front.now (outcome_of (Some dir) due)) }
    ensures silent { IfOk result IsSilent }
{
    said_read_back();
    let outcome = session.answer()?;
    let verdict = verdict_of(outcome);
    let mut due = ready(alloc, verdict, None)?;
    let mut whole = Text::of(alloc, front)?;
    whole.push(due.text.as_str())?;
    due.text = whole;
    Ok(due)
}

/// The end of following, or want of memory.
fn end(due: Result<Due, NoMemory>) -> Result<Option<Due>, Stopped>
    ensures { result ≡ ended due }
{
    match due {
        Ok(due) => Ok(Some(due)),
        Err(_) => Err(Stopped::NoMemory),
    }
}

/// Puts a page, with the line for it made before, so that want of memory hides no read fault.
fn put_page<P: PageSource>(
    alloc: Global,
    session: &mut Session<'_>,
    script: &str,
    start: u64,
    name: &str,
    pages: &mut P,
) -> Result<Option<Due>, Stopped>
    requires count { P.faults pages.old + 1 < 2 ^ 64 }
    requires name { length name.now ≤ LONGEST_NAME }
    ensures follows { (text : List ℕ) → IsLineFollowed script.now (record { start = start; line = script_line.Put name.now })
        (source_told P.PageSource pages.old) (source_told P.PageSource pages.new) session.old session.new text text result }
    ensures pages { P.page pages.new ≡ P.page pages.old }
    ensures numbers { P.numbers pages.new ≡ P.numbers pages.old }
{
    lines_by_calls();
    let Ok(line) = cannot_read(alloc, name) else {
        return Err(Stopped::NoMemory);
    };
    match session.put(name, pages) {
        Ok(()) => Ok(None),
        Err(PutFault::TooMany) => end(due_of_line(alloc, script, Rule::X3, start)),
        Err(PutFault::Spent) => end(due_of_line(alloc, script, Rule::X4, start)),
        Err(PutFault::ReadFault) => Err(Stopped::Failed(line)),
        Err(PutFault::NoMemory) => Err(Stopped::NoMemory),
    }
}

/// Follows a line. It answers what is due where it ends the script.
pub fn follow_line<P: PageSource>(
    alloc: Global,
    session: &mut Session<'_>,
    text: &mut Text,
    script: &str,
    line: &ScriptLine,
    pages: &mut P,
) -> Result<Option<Due>, Stopped>
    requires count { P.faults pages.old + 1 < 2 ^ 64 }
    requires short { IsShort line.now.line }
    ensures follows { IsLineFollowed script.now line.now (source_told P.PageSource pages.old) (source_told P.PageSource pages.new)
        session.old session.new text.old text.new result }
    ensures pages { P.page pages.new ≡ P.page pages.old }
    ensures numbers { P.numbers pages.new ≡ P.numbers pages.old }
{
    lines_by_calls();
    match &line.line {
        Line::Put(name) => put_page(alloc, session, script, line.start, name.as_str(), pages),
        Line::Drop(name) => {
            if session.remove(name.as_str()) {
                return Ok(None);
            }
            end(due_of_line(alloc, script, Rule::X2, line.start))
        }
        Line::Check => match check(alloc, session, text) {
            Ok(()) => Ok(None),
            Err(_) => Err(Stopped::NoMemory),
        },
        Line::Extract => end(extracted(alloc, session, text.as_str())),
    }
}
