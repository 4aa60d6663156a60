//! Scripts of a session.
ghost use Rattle.std.specs.Prelude.{◌≡◌, ◌==◌, IfOk, position};
ghost use Rattle.page_session.specs.Script as scripts;

use ix_base::limits::LONGEST_SCRIPT;
use ix_base::{List, NoMemory, Text};
use page_names::is_page_name;
use std::alloc::Global;

/// A line of a script.
#[derive(Debug, Drop)]
pub enum Line {
    /// Puts the page of this name, in place of an older one.
    Put(Text),
    /// Drops the page of this name.
    Drop(Text),
    /// Tells what extracting the pages that are there would.
    Check,
    /// Extracts the pages that are there.
    Extract,
}

/// A line of a script, with the offset of its first byte.
#[derive(Debug, Drop)]
pub struct ScriptLine {
    pub start: u64,
    pub line: Line,
}

/// What a script says.
#[derive(Debug, Drop)]
pub enum Script {
    /// Its lines. The last is an extract, and no other.
    Good(List<ScriptLine>),
    /// It is bad at this offset, that of the first bad line, where it is neither too long nor without a line.
    Bad(u64),
}

impl Line {
    fn is_extract(&self) -> bool
        ensures { result ≡ scripts.is_extract self.now }
    {
        match self {
            Line::Extract => true,
            Line::Put(_) | Line::Drop(_) | Line::Check => false,
        }
    }
}

/// A name that may name a page.
fn page_name(alloc: Global, name: &str) -> Result<Option<Text>, NoMemory>
    ensures { IfOk result (λ name'. name' ≡ scripts.page_name name.now) }
{
    if !is_page_name(name) {
        return Ok(None);
    }
    let name = Text::of(alloc, name)?;
    Ok(Some(name))
}

/// The line that a text is, if it has one of the four forms.
fn line_in(alloc: Global, text: &str) -> Result<Option<Line>, NoMemory>
    ensures { IfOk result (λ line. line ≡ scripts.line_in text.now) }
{
    if text == "check" {
        return Ok(Some(Line::Check));
    }
    if text == "extract" {
        return Ok(Some(Line::Extract));
    }
    if let Some(name) = text.strip_prefix("put ") {
        return Ok(page_name(alloc, name)?.map(Line::Put));
    }
    if let Some(name) = text.strip_prefix("drop ") {
        return Ok(page_name(alloc, name)?.map(Line::Drop));
    }
    Ok(None)
}

/// The line that these bytes are, if they are a good one.
fn good_line(alloc: Global, bytes: &[u8], is_last: bool) -> Result<Option<Line>, NoMemory>
    ensures { IfOk result (λ line. line ≡ scripts.good_line is_last bytes.now) }
{
    let Ok(text) = str::from_utf8(bytes) else {
        return Ok(None);
    };
    let Some(line) = line_in(alloc, text)? else {
        return Ok(None);
    };
    if line.is_extract() != is_last {
        return Ok(None);
    }
    Ok(Some(line))
}

/// Where the first line feed stands.
fn line_feed_in(bytes: &[u8]) -> Option<usize>
    ensures { result ≡ position (λ b. b == 10) bytes.now }
{
    bytes.iter().position(|b| *b == b'\n')
}

/// What a script says.
pub fn parse(alloc: Global, script: &[u8]) -> Result<Script, NoMemory>
    ensures { IfOk result (λ said. said ≡ scripts.script_of script.now) }
{
    if script.len() > LONGEST_SCRIPT {
        return Ok(Script::Bad(LONGEST_SCRIPT as u64));
    }
    if script.is_empty() {
        return Ok(Script::Bad(0));
    }
    let mut lines = List::new(alloc);
    let mut start = 0;
    while start < script.len() {
        let rest = &script[start..];
        let Some(end) = line_feed_in(rest) else {
            return Ok(Script::Bad(start as u64));
        };
        let next = start + end + 1;
        let Some(line) = good_line(alloc, &rest[..end], next == script.len())? else {
            return Ok(Script::Bad(start as u64));
        };
        lines.push(ScriptLine {
            start: start as u64,
            line,
        })?;
        start = next;
    }
    Ok(Script::Good(lines))
}
