//! The complaint about words that give no command.
ghost use Rattle.std.specs.Prelude.{◌≡◌, IfOk, IfSome, None};
ghost use Rattle.command_words.specs.Commands as run;

use crate::complaint::push_shown;
use ix_base::limits::MOST_PAGES;
use ix_base::{NoMemory, Text};
use ixds_run::command_of;
use std::alloc::Global;

/// What is wrong: a word, and what stands before and behind it in the line that tells so.
#[derive(Clone, Copy)]
struct Wrong<'a> {
    before: &'static str,
    word: &'a str,
    behind: &'static str,
}

/// What stands behind `extract`, `check`, `trace` or `session`.
#[derive(Drop)]
struct Parts<'a> {
    base: Option<&'a str>,
    out: Option<&'a str>,
    pages: Vec<&'a str>,
}

impl<'a> Wrong<'a> {
    /// That a word is wrong in this way.
    fn new(before: &'static str, word: &'a str, behind: &'static str) -> Wrong<'a> {
        Wrong {
            before,
            word,
            behind,
        }
    }
}

/// Which parts stand behind a command.
#[derive(Clone, Copy)]
struct Takes {
    out: bool,
    script: bool,
}

/// Whether a word can't be a value.
fn is_option(word: &str) -> bool {
    word.len() > 1 && word.starts_with("-")
}

/// Whether these words give a command.
fn is_command(alloc: Global, words: &[&str]) -> Result<bool, NoMemory> {
    let mut texts = Vec::new(alloc);
    for word in words {
        texts.push(Text::of(alloc, word)?)?;
    }
    let command = command_of(alloc, texts.as_slice())?;
    Ok(command.is_some())
}

/// Whether a word can be the base: a page can be checked with it.
fn is_base(alloc: Global, base: &str) -> Result<bool, NoMemory> {
    is_command(alloc, &["check", "--base", base, "--", "a"])
}

/// Whether a word can be the name of a page: the page can be checked.
fn is_page(alloc: Global, page: &str) -> Result<bool, NoMemory> {
    is_command(alloc, &["check", "--base", "http://a/", "--", page])
}

impl<'a> Parts<'a> {
    /// Keeps the value of an option.
    fn keep(&mut self, option: &'a str, value: &'a str) -> Option<Wrong<'a>> {
        let stands = if option == "--out" {
            self.out.replace(value)
        } else {
            self.base.replace(value)
        };
        stands.map(|_| Wrong::new("", option, " stands twice"))
    }

    /// What is wrong with the base and the directory.
    fn wrong_value(&self, alloc: Global, takes_out: bool) -> Result<Option<Wrong<'a>>, NoMemory> {
        let Some(base) = self.base else {
            return Ok(Some(Wrong::new("", "--base", " is missing")));
        };
        if takes_out && self.out.is_none() {
            return Ok(Some(Wrong::new("", "--out", " is missing")));
        }
        if !is_base(alloc, base)? {
            return Ok(Some(Wrong::new("", "--base", " isn't an http or https URL")));
        }
        if self.out == Some("") {
            return Ok(Some(Wrong::new("", "--out", " is empty")));
        }
        Ok(None)
    }

    /// What is wrong with the script.
    fn wrong_script(&self, alloc: Global) -> Result<Option<Wrong<'a>>, NoMemory> {
        let [script] = self.pages.as_slice() else {
            return Ok(Some(Wrong::new("", "", "session takes one script")));
        };
        if !is_page(alloc, script)? {
            return Ok(Some(Wrong::new("no script can be named ", script, "")));
        }
        Ok(None)
    }

    /// What is wrong with the pages.
    fn wrong_page(&self, alloc: Global) -> Result<Option<Wrong<'a>>, NoMemory> {
        let pages = self.pages.as_slice();
        if pages.is_empty() {
            return Ok(Some(Wrong::new("", "", "no page is named")));
        }
        if pages.len() > MOST_PAGES {
            return Ok(Some(Wrong::new("", "", "more than 64 pages are named")));
        }
        for (at, page) in pages.iter().enumerate() {
            if !is_page(alloc, page)? {
                return Ok(Some(Wrong::new("no page can be named ", page, "")));
            }
            if pages[..at].iter().any(|earlier| *earlier == *page) {
                return Ok(Some(Wrong::new("the page ", page, " stands twice")));
            }
        }
        Ok(None)
    }
}

/// Reads words one by one.
#[derive(Drop)]
struct Reader<'a> {
    parts: Parts<'a>,
    takes_out: bool,
    waits: Option<&'a str>,
    is_ended: bool,
}

impl<'a> Reader<'a> {
    /// Reads an option, which is written with its value or waits for it.
    fn read_option(&mut self, word: &'a str) -> Option<Wrong<'a>> {
        let (option, value) = match word.split_once('=') {
            Some((option, value)) => (option, Some(value)),
            None => (word, None),
        };
        if option != "--base" && !(self.takes_out && option == "--out") {
            return Some(Wrong::new("", word, " is no option"));
        }
        match value {
            Some(value) => self.parts.keep(option, value),
            None => {
                self.waits = Some(option);
                None
            }
        }
    }

    /// Reads one word, and tells what is wrong with it.
    fn read(&mut self, word: &'a str) -> Result<Option<Wrong<'a>>, NoMemory> {
        if let Some(option) = self.waits.take() {
            if is_option(word) {
                return Ok(Some(Wrong::new("the value of ", option, " is missing")));
            }
            return Ok(self.parts.keep(option, word));
        }
        if self.is_ended || !is_option(word) {
            self.parts.pages.push(word)?;
            return Ok(None);
        }
        if word == "--" {
            self.is_ended = true;
            return Ok(None);
        }
        Ok(self.read_option(word))
    }
}

/// What is wrong with the words behind `extract`, `check`, `trace` or `session`: the first word that is, or else the first part.
fn wrong_part<'a>(
    alloc: Global,
    words: &'a [Text],
    takes: Takes,
) -> Result<Option<Wrong<'a>>, NoMemory> {
    let parts = Parts {
        base: None,
        out: None,
        pages: Vec::new(alloc),
    };
    let mut reader = Reader {
        parts,
        takes_out: takes.out,
        waits: None,
        is_ended: false,
    };
    for word in words {
        let found = reader.read(word.as_str())?;
        if found.is_some() {
            return Ok(found);
        }
    }
    if let Some(option) = reader.waits {
        return Ok(Some(Wrong::new("the value of ", option, " is missing")));
    }
    let found = reader.parts.wrong_value(alloc, takes.out)?;
    if found.is_some() {
        return Ok(found);
    }
    if takes.script {
        return reader.parts.wrong_script(alloc);
    }
    reader.parts.wrong_page(alloc)
}

/// What is wrong with the words behind `plain`.
fn wrong_plain(words: &[Text]) -> Wrong<'_> {
    match words {
        [page] => Wrong::new("no page can be named ", page.as_str(), ""),
        _ => Wrong::new("", "", "plain takes one page, and no options"),
    }
}

const EXTRACT: Takes = Takes {
    out: true,
    script: false,
};

const CHECK: Takes = Takes {
    out: false,
    script: false,
};

const SESSION: Takes = Takes {
    out: true,
    script: true,
};

/// What is wrong with words that give no command.
fn wrong_word<'a>(alloc: Global, words: &'a [Text]) -> Result<Option<Wrong<'a>>, NoMemory> {
    let [first, rest @ ..] = words else {
        return Ok(Some(Wrong::new("", "", "no words are given, or one isn't UTF-8")));
    };
    match first.as_str() {
        "extract" => wrong_part(alloc, rest, EXTRACT),
        "check" | "trace" => wrong_part(alloc, rest, CHECK),
        "session" => wrong_part(alloc, rest, SESSION),
        "sample" => Ok(Some(Wrong::new("", "", "a sample takes one number, from 1 to 200000"))),
        "plain" => Ok(Some(wrong_plain(rest))),
        word => Ok(Some(Wrong::new("", word, " is no command"))),
    }
}

/// The line that tells what is wrong with words, where they give no command.
pub(crate) fn wrong_line(alloc: Global, words: &[Text]) -> Result<Option<Vec<u8>>, NoMemory>
    ensures { IfOk result (λ line. IfSome line (λ _. run.command_of words.now ≡ None)) }
{
    if command_of(alloc, words)?.is_some() {
        return Ok(None);
    }
    let Some(wrong) = wrong_word(alloc, words)? else {
        return Ok(None);
    };
    let mut line = b"ixds: ".to_vec(alloc)?;
    line.extend_from_slice(wrong.before.as_bytes())?;
    push_shown(&mut line, wrong.word.as_bytes())?;
    line.extend_from_slice(wrong.behind.as_bytes())?;
    line.extend_from_slice(b"\n")?;
    Ok(Some(line))
}
