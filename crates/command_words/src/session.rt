//! The words of a session.
ghost use Rattle.std.specs.Prelude.{◌≡◌, IfOk, Some, map, option_and_then};
ghost use Rattle.command_words.specs.Commands as commands;
ghost use Rattle.command_words.specs.Simple.{rows_of_matches, rows_taken, session_app};

use crate::base::is_base;
use crate::command::Command;
use crate::names::are_pages;
use crate::simple::{matched, session_words};
use clap::ArgMatches;
use ix_base::{NoMemory, Text};
use std::alloc::Global;
use std::slice::from_ref;

/// The session of this script, where these words may stand for its parts.
fn session_from(
    alloc: Global,
    base: &str,
    dir: &str,
    words: &[&str],
) -> Result<Option<Command>, NoMemory>
    ensures { IfOk result (λ r. r ≡ commands.session_from (Some base.now) (Some dir.now) (Some (map (λ s. s.now) words.now))) }
{
    let [script] = words else {
        return Ok(None);
    };
    let is_base = is_base(alloc, base)?;
    let script = Text::of(alloc, script)?;
    if is_base && !dir.is_empty() && are_pages(from_ref(&script)) {
        let base = Text::of(alloc, base)?;
        let dir = Text::of(alloc, dir)?;
        return Ok(Some(Command::Session(base, dir, script)));
    }
    Ok(None)
}

/// What the matches of `session` ask for.
fn session_in(alloc: Global, matches: &ArgMatches) -> Result<Option<Command>, NoMemory>
    ensures { IfOk result (λ r. r ≡ commands.session_in (rows_of_matches matches.now)) }
{
    let Some(base) = matches.get_str("base") else {
        return Ok(None);
    };
    let Some(dir) = matches.get_str("out") else {
        return Ok(None);
    };
    let Some(script) = matches.get_strs("SCRIPT") else {
        return Ok(None);
    };
    session_from(alloc, base, dir, script)
}

/// The session that the words from `session` on ask for.
pub fn session_of<'a>(alloc: Global, words: &'a [Text]) -> Result<Option<Command>, NoMemory>
    ensures { IfOk result (λ r. r ≡ option_and_then commands.session_in (rows_taken session_app words.entry.now)) }
{
    let command = session_words(alloc)?;
    match matched(command, words)? {
        Some(matches) => session_in(alloc, &matches),
        None => Ok(None),
    }
}
