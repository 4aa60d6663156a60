//! The simple commands that read the words after `extract`, `check`, `trace` and `session`.
ghost use Rattle.std.specs.Prelude.{◌≡◌, IfOk, false, true, option_map};
ghost use Rattle.clap.specs.Words.{app_of, rule_of, is_simple_and_free};
ghost use Rattle.command_words.specs.Simple.{check_app, extract_app, option_rule, page_rule, rows_of_matches, rows_taken, script_rule, session_app, trace_app};

use clap::error::ErrorKind;
use clap::{Arg, ArgMatches, Command};
use ix_base::{NoMemory, Text};
use std::alloc::Global;

/// A required option with one value.
fn option<'a>(alloc: Global, name: &'a str) -> Arg<'a>
    ensures rule { rule_of result ≡ option_rule name.entry.now }
    ensures local { result.global ≡ false }
{
    Arg::new(alloc, name).long(name).required(true)
}

/// The pages: one positional with one or more values.
fn page_argument<'a>(alloc: Global) -> Arg<'a>
    ensures rule { rule_of result ≡ page_rule }
    ensures local { result.global ≡ false }
{
    Arg::new(alloc, "PAGE").num_args(1..).required(true)
}

/// The script: one positional with one value.
fn script_argument<'a>(alloc: Global) -> Arg<'a>
    ensures rule { rule_of result ≡ script_rule }
    ensures local { result.global ≡ false }
{
    Arg::new(alloc, "SCRIPT").num_args(1..=1).required(true)
}

/// What reads the words from `extract` on.
pub fn extract_words<'a>(alloc: Global) -> Result<Command<'a>, NoMemory>
    ensures { IfOk result (λ c. app_of c ≡ extract_app) }
{
    let command = Command::new(alloc, "extract")
        .arg(option(alloc, "base"))?
        .arg(option(alloc, "out"))?
        .arg(page_argument(alloc))?;
    Ok(command)
}

/// What reads the words from `check` on.
pub fn check_words<'a>(alloc: Global) -> Result<Command<'a>, NoMemory>
    ensures { IfOk result (λ c. app_of c ≡ check_app) }
{
    let command = Command::new(alloc, "check")
        .arg(option(alloc, "base"))?
        .arg(page_argument(alloc))?;
    Ok(command)
}

/// What reads the words from `trace` on.
pub fn trace_words<'a>(alloc: Global) -> Result<Command<'a>, NoMemory>
    ensures { IfOk result (λ c. app_of c ≡ trace_app) }
{
    let command = Command::new(alloc, "trace")
        .arg(option(alloc, "base"))?
        .arg(page_argument(alloc))?;
    Ok(command)
}

/// What reads the words from `session` on.
pub fn session_words<'a>(alloc: Global) -> Result<Command<'a>, NoMemory>
    ensures { IfOk result (λ c. app_of c ≡ session_app) }
{
    let command = Command::new(alloc, "session")
        .arg(option(alloc, "base"))?
        .arg(option(alloc, "out"))?
        .arg(script_argument(alloc))?;
    Ok(command)
}

/// The matches of a simple command, none where it refuses the words. The first word stands for its name.
pub fn matched<'a>(
    command: Command<'a>,
    words: &'a [Text],
) -> Result<Option<ArgMatches<'a>>, NoMemory>
    requires { is_simple_and_free (app_of command) ≡ true }
    ensures { IfOk result (λ r. option_map rows_of_matches r ≡ rows_taken (app_of command.entry) words.entry.now) }
{
    match command.try_get_matches_from(words) {
        Ok(matches) => Ok(Some(matches)),
        Err(error) => match error.kind() {
            ErrorKind::OutOfMemory => Err(NoMemory),
            _ => Ok(None),
        },
    }
}
