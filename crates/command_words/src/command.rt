//! Commands.
ghost use Rattle.std.specs.Prelude.{◌≡◌, IfOk, IfSome, Some, map, option_and_then, option_map};
ghost use Rattle.command_words.specs.Commands as commands;
ghost use Rattle.command_words.specs.Simple.{check_app, extract_app, rows_of_matches, rows_taken, trace_app};

use crate::base::is_base;
use crate::names::are_pages;
use crate::number::sample_number;
use crate::session::session_of;
use crate::simple::{check_words, extract_words, matched, trace_words};
use clap::ArgMatches;
use ix_base::{List, NoMemory, Text};
use sample_page::{SAMPLE_BASE, sample_names};
use std::alloc::Global;
use std::slice::from_ref;

/// What the words of a command line ask for.
#[derive(Debug, Drop)]
pub enum Command {
    /// To extract pages into a directory: the base that links are joined to, the directory, and the names of the pages.
    Extract(Text, Text, List<Text>),
    /// To tell what extracting would: the base, and the names of the pages.
    Check(Text, List<Text>),
    /// To make a sample of so many facts, and to tell what extracting it would and how long its instance is.
    Sample(u32),
    /// To print a page without its inline markup: the name of the page.
    Plain(Text),
    /// To tell where the text of each fact stands: the base, and the names of the pages.
    Trace(Text, List<Text>),
    /// To follow a script: the base, the directory, and the name of the script.
    Session(Text, Text, Text),
}

impl Command {
    /// The names of the pages. Those of a session are named by its script.
    pub fn names(&self, alloc: Global) -> Result<Vec<Text>, NoMemory>
        ensures { IfOk result (λ v. v.items ≡ commands.pages_of self.now) }
    {
        match self {
            Command::Extract(_, _, pages) => copied(alloc, pages.as_slice()),
            Command::Check(_, pages) => copied(alloc, pages.as_slice()),
            Command::Sample(_) => sample_names(alloc),
            Command::Plain(page) => copied(alloc, from_ref(page)),
            Command::Trace(_, pages) => copied(alloc, pages.as_slice()),
            Command::Session(_, _, script) => copied(alloc, from_ref(script)),
        }
    }

    /// The base that links are joined to, where there is one.
    pub fn base(&self) -> Option<&str>
        ensures { option_map (λ s. s.now) result ≡ commands.base_of self.now }
    {
        match self {
            Command::Extract(base, _, _) => Some(base.as_str()),
            Command::Check(base, _) => Some(base.as_str()),
            Command::Sample(_) => Some(SAMPLE_BASE),
            Command::Plain(_) => None,
            Command::Trace(base, _) => Some(base.as_str()),
            Command::Session(base, _, _) => Some(base.as_str()),
        }
    }

    /// The directory word, where there is one.
    pub fn dir(&self) -> Option<&str>
        ensures { option_map (λ s. s.now) result ≡ commands.dir_of self.now }
    {
        match self {
            Command::Extract(_, dir, _) => Some(dir.as_str()),
            Command::Check(_, _) => None,
            Command::Sample(_) => None,
            Command::Plain(_) => None,
            Command::Trace(_, _) => None,
            Command::Session(_, dir, _) => Some(dir.as_str()),
        }
    }

    /// How many facts a sample has.
    pub fn number(&self) -> Option<u32>
        ensures { result ≡ commands.number_of self.now }
    {
        match self {
            Command::Extract(_, _, _) => None,
            Command::Check(_, _) => None,
            Command::Sample(number) => Some(*number),
            Command::Plain(_) => None,
            Command::Trace(_, _) => None,
            Command::Session(_, _, _) => None,
        }
    }
}

/// Copies of texts.
fn copied(alloc: Global, texts: &[Text]) -> Result<Vec<Text>, NoMemory>
    ensures { IfOk result (λ v. v.items ≡ texts.now) }
{
    let mut copies = Vec::new(alloc);
    for text in texts {
        copies.push(Text::of(alloc, text.as_str())?)?;
    }
    Ok(copies)
}

/// The words as texts.
fn texts_of(alloc: Global, words: &[&str]) -> Result<Vec<Text>, NoMemory>
    ensures { IfOk result (λ v. v.items ≡ map (λ s. s.now) words.now) }
{
    let mut texts = Vec::new(alloc);
    for word in words {
        let text = Text::of(alloc, word)?;
        texts.push(text)?;
    }
    Ok(texts)
}

/// The extraction that these words name, where they may stand for its parts.
fn extract_from(
    alloc: Global,
    base: &str,
    dir: &str,
    words: &[&str],
) -> Result<Option<Command>, NoMemory>
    ensures { IfOk result (λ r. r ≡ commands.extract_from (Some base.now) (Some dir.now) (Some (map (λ s. s.now) words.now))) }
{
    let is_base = is_base(alloc, base)?;
    let pages = texts_of(alloc, words)?;
    if is_base && !dir.is_empty() && are_pages(pages.as_slice()) {
        let base = Text::of(alloc, base)?;
        let dir = Text::of(alloc, dir)?;
        return Ok(Some(Command::Extract(base, dir, List::of(pages))));
    }
    Ok(None)
}

/// The base and the pages that these words name, where they may stand for them.
fn pages_from(
    alloc: Global,
    base: &str,
    words: &[&str],
) -> Result<Option<(Text, List<Text>)>, NoMemory>
    ensures { IfOk result (λ r. r ≡ commands.pages_from (Some base.now) (Some (map (λ s. s.now) words.now))) }
{
    let is_base = is_base(alloc, base)?;
    let pages = texts_of(alloc, words)?;
    if is_base && are_pages(pages.as_slice()) {
        let base = Text::of(alloc, base)?;
        return Ok(Some((base, List::of(pages))));
    }
    Ok(None)
}

/// What the matches of `extract` ask for.
fn extract_in(alloc: Global, matches: &ArgMatches) -> Result<Option<Command>, NoMemory>
    ensures { IfOk result (λ r. r ≡ commands.extract_in (rows_of_matches matches.now)) }
{
    let Some(base) = matches.get_str("base") else {
        return Ok(None);
    };
    let Some(dir) = matches.get_str("out") else {
        return Ok(None);
    };
    let Some(pages) = matches.get_strs("PAGE") else {
        return Ok(None);
    };
    extract_from(alloc, base, dir, pages)
}

/// The base and the pages that matches have.
fn pages_in(alloc: Global, matches: &ArgMatches) -> Result<Option<(Text, List<Text>)>, NoMemory>
    ensures { IfOk result (λ r. r ≡ commands.pages_in (rows_of_matches matches.now)) }
{
    let Some(base) = matches.get_str("base") else {
        return Ok(None);
    };
    let Some(pages) = matches.get_strs("PAGE") else {
        return Ok(None);
    };
    pages_from(alloc, base, pages)
}

/// What the matches of `check` ask for.
fn check_in(alloc: Global, matches: &ArgMatches) -> Result<Option<Command>, NoMemory>
    ensures { IfOk result (λ r. r ≡ commands.check_in (rows_of_matches matches.now)) }
{
    match pages_in(alloc, matches)? {
        Some((base, pages)) => Ok(Some(Command::Check(base, pages))),
        None => Ok(None),
    }
}

/// What the matches of `trace` ask for.
fn trace_in(alloc: Global, matches: &ArgMatches) -> Result<Option<Command>, NoMemory>
    ensures { IfOk result (λ r. r ≡ commands.trace_in (rows_of_matches matches.now)) }
{
    match pages_in(alloc, matches)? {
        Some((base, pages)) => Ok(Some(Command::Trace(base, pages))),
        None => Ok(None),
    }
}

fn extract_of<'a>(alloc: Global, words: &'a [Text]) -> Result<Option<Command>, NoMemory>
    ensures { IfOk result (λ r. r ≡ option_and_then commands.extract_in (rows_taken extract_app words.entry.now)) }
{
    let command = extract_words(alloc)?;
    match matched(command, words)? {
        Some(matches) => extract_in(alloc, &matches),
        None => Ok(None),
    }
}

fn check_of<'a>(alloc: Global, words: &'a [Text]) -> Result<Option<Command>, NoMemory>
    ensures { IfOk result (λ r. r ≡ option_and_then commands.check_in (rows_taken check_app words.entry.now)) }
{
    let command = check_words(alloc)?;
    match matched(command, words)? {
        Some(matches) => check_in(alloc, &matches),
        None => Ok(None),
    }
}

fn trace_of<'a>(alloc: Global, words: &'a [Text]) -> Result<Option<Command>, NoMemory>
    ensures { IfOk result (λ r. r ≡ option_and_then commands.trace_in (rows_taken trace_app words.entry.now)) }
{
    let command = trace_words(alloc)?;
    match matched(command, words)? {
        Some(matches) => trace_in(alloc, &matches),
        None => Ok(None),
    }
}

/// The sample that the words behind `sample` ask for.
fn sample_in(words: &[Text]) -> Option<Command>
    ensures { result ≡ commands.sample_in words.now }
{
    match words {
        [number] => sample_number(number.as_str()).map(Command::Sample),
        _ => None,
    }
}

/// The page that the words behind `plain` ask for.
fn plain_in(alloc: Global, words: &[Text]) -> Result<Option<Command>, NoMemory>
    ensures { IfOk result (λ r. r ≡ commands.plain_in words.now) }
{
    let [page] = words else {
        return Ok(None);
    };
    if are_pages(words) {
        return Ok(Some(Command::Plain(Text::of(alloc, page.as_str())?)));
    }
    Ok(None)
}

/// The command that the first word picks, and the words from there on give.
#[tactic(auto, unfolding(crate::specs::Commands::command_of))]
fn picked(alloc: Global, words: &[Text]) -> Result<Option<Command>, NoMemory>
    ensures { IfOk result (λ c. c ≡ commands.command_of words.now) }
{
    let [first, rest @ ..] = words else {
        return Ok(None);
    };
    if first.as_str() == "extract" {
        return extract_of(alloc, words);
    }
    if first.as_str() == "check" {
        return check_of(alloc, words);
    }
    if first.as_str() == "sample" {
        return Ok(sample_in(rest));
    }
    if first.as_str() == "plain" {
        return plain_in(alloc, rest);
    }
    if first.as_str() == "trace" {
        return trace_of(alloc, words);
    }
    if first.as_str() == "session" {
        return session_of(alloc, words);
    }
    Ok(None)
}

/// The command that the words of a command line give, without the program's name, or none where they give none.
pub fn command_of(alloc: Global, words: &[Text]) -> Result<Option<Command>, NoMemory>
    ensures value { IfOk result (λ c. c ≡ commands.command_of words.now) }
    ensures given { IfOk result (λ o. IfSome o commands.IsGiven) }
{
    picked(alloc, words)
}
