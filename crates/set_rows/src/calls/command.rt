//! Commands, as tables write them.
use anyhow::Result;
use ix_base::Text;
use ixds_run::{Command, command_of};
use std::alloc::Global;

/// The parts of a command, parted by bars.
fn push_command(command: &Command, text: &mut String) -> Result<()> {
    match command {
        Command::Extract(base, dir, pages) => {
            write!(text, "extract|{}|{}", base.as_str(), dir.as_str())?;
            push_pages(pages.as_slice(), text)?;
        }
        Command::Check(base, pages) => {
            write!(text, "check|{}", base.as_str())?;
            push_pages(pages.as_slice(), text)?;
        }
        Command::Sample(number) => write!(text, "sample|{number}")?,
        Command::Plain(page) => write!(text, "plain|{}", page.as_str())?,
        Command::Trace(base, pages) => {
            write!(text, "trace|{}", base.as_str())?;
            push_pages(pages.as_slice(), text)?;
        }
        Command::Session(base, dir, script) => {
            let (base, dir) = (base.as_str(), dir.as_str());
            write!(text, "session|{base}|{dir}|{}", script.as_str())?
        }
    }
    Ok(())
}

/// What is said of a command, or of none.
fn said(alloc: Global, command: Option<&Command>) -> Result<String> {
    let mut text = String::new(alloc);
    match command {
        Some(command) => push_command(command, &mut text)?,
        None => text.push_str("none")?,
    }
    Ok(text)
}

/// The parts of the command that words give, parted by bars, or `none`.
pub(crate) fn command_text(alloc: Global, words: &[Text]) -> Result<String> {
    let command = command_of(alloc, words)?;
    said(alloc, command.as_ref())
}

/// The names of pages, each behind a bar.
fn push_pages(pages: &[Text], text: &mut String) -> Result<()> {
    for page in pages {
        write!(text, "|{}", page.as_str())?;
    }
    Ok(())
}
