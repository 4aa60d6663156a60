//! Rows, as their tables have them.
use crate::calls::due::{Calls, Due, End, Target};
use crate::calls::written::{bytes_of, number_of, text_of};
use anyhow::{Context, Result, bail, ensure};
use ix_base::Text;
use ixds_run::sample_pages;
use std::alloc::Global;

/// The numbers of the calls that fail.
#[derive(Drop)]
pub struct Fails {
    pub pages: Vec<u64>,
    pub sink: Vec<u64>,
    pub out: Vec<u64>,
}

/// A page of a row.
#[derive(Drop)]
pub struct Page {
    pub name: String,
    pub bytes: Vec<u8>,
}

/// A row: words, pages, what fails, and what is due.
#[derive(Drop)]
pub struct Row {
    pub name: String,
    pub words: Vec<Text>,
    pub pages: Vec<Page>,
    /// The first page is cut behind each of its bytes.
    pub is_cut: bool,
    pub step: u64,
    pub room: u64,
    pub fails: Fails,
    pub due: Due,
}

/// The pages of a sample.
fn sample_of(alloc: Global, value: &str) -> Result<Vec<Page>> {
    let number = value.parse::<u32>().context("a number of facts")?;
    ensure!(1 <= number && number <= 200_000, "too many facts");
    let mut pages = Vec::new(alloc);
    for page in sample_pages(alloc, number)? {
        pages.push(Page {
            name: String::from_str(alloc, page.name.as_str())?,
            bytes: page.bytes.as_slice().to_vec(alloc)?,
        })?;
    }
    Ok(pages)
}

/// Adds a text so many times, in which each `#` stands for the number, from 1, and each `^` for the next one.
fn push_numbered(alloc: Global, text: &[u8], times: u64, bytes: &mut Vec<u8>) -> Result<()> {
    for number in 1..=times {
        let next = number.saturating_add(1).to_string(alloc)?;
        let number = number.to_string(alloc)?;
        for byte in text {
            match *byte {
                b'#' => bytes.extend_from_slice(number.as_bytes())?,
                b'^' => bytes.extend_from_slice(next.as_bytes())?,
                byte => bytes.push(byte)?,
            }
        }
    }
    Ok(())
}

/// A line of a report at each place of a tag in a page.
fn lines_at(alloc: Global, page: &Page, tag: &[u8], line: &str) -> Result<Vec<u8>> {
    let mut text = String::new(alloc);
    for offset in 0..page.bytes.len() {
        if page.bytes[offset..].starts_with(tag) {
            writeln!(text, "{}:{offset}: {line}", page.name)?;
        }
    }
    Ok(text.into_bytes())
}

impl Row {
    /// A row of which nothing is said yet.
    fn new(alloc: Global, name: &str) -> Result<Row> {
        Ok(Row {
            name: String::from_str(alloc, name)?,
            words: Vec::new(alloc),
            pages: Vec::new(alloc),
            is_cut: false,
            step: 65_536,
            room: 4_000,
            fails: Fails {
                pages: Vec::new(alloc),
                sink: Vec::new(alloc),
                out: Vec::new(alloc),
            },
            due: Due::none(alloc),
        })
    }

    /// Adds a word.
    fn add_word(&mut self, alloc: Global, written: &str) -> Result<()> {
        let word = text_of(alloc, written)?;
        self.words.push(Text::of(alloc, word.as_str())?)?;
        Ok(())
    }

    /// Adds a page.
    fn add_page(&mut self, alloc: Global, value: &str) -> Result<()> {
        let (name, text) = value.split_once(' ').unwrap_or((value, ""));
        let name = text_of(alloc, name)?;
        self.pages.push(Page {
            name,
            bytes: bytes_of(alloc, text)?,
        })?;
        Ok(())
    }

    /// Makes the last page longer.
    fn add_more(&mut self, alloc: Global, value: &str) -> Result<()> {
        let (times, text) = value.split_once(' ').context("no text")?;
        let times = number_of(times)?;
        let text = bytes_of(alloc, text)?;
        let page = self.pages.last_mut().context("no page")?;
        push_numbered(alloc, text.as_slice(), times, &mut page.bytes)
    }

    /// Adds a line at each place of a tag in the first page to the text that is due.
    fn add_each(&mut self, alloc: Global, value: &str) -> Result<()> {
        let (tag, line) = value.split_once(' ').context("no line")?;
        let tag = bytes_of(alloc, tag)?;
        let line = text_of(alloc, line)?;
        let page = self.pages.first().context("no page")?;
        let text = lines_at(alloc, page, tag.as_slice(), line.as_str())?;
        self.due.text = Some(text);
        Ok(())
    }

    /// Adds the end of a page.
    fn add_end(&mut self, alloc: Global, value: &str) -> Result<()> {
        let (page, text) = value.split_once(' ').context("no text")?;
        self.due.ends.push(End {
            page: text_of(alloc, page)?,
            text: bytes_of(alloc, text)?,
        })?;
        Ok(())
    }

    /// Adds a call that fails.
    fn add_fail(&mut self, alloc: Global, value: &str) -> Result<()> {
        let (of, number) = value.split_once(' ').context("no number")?;
        let number = number_of(number)?;
        match of {
            "pages" => self.fails.pages.push(number)?,
            "sink" => self.fails.sink.push(number)?,
            "out" => self.fails.out.push(number)?,
            _ => bail!("another object that fails"),
        }
        Ok(())
    }

    /// Takes a line that says what is there.
    fn take_given(&mut self, alloc: Global, key: &str, value: &str) -> Result<bool> {
        match key {
            "word" => self.add_word(alloc, value)?,
            "words" => {
                for word in value.split(' ') {
                    self.add_word(alloc, word)?;
                }
            }
            "page" => self.add_page(alloc, value)?,
            "more" => self.add_more(alloc, value)?,
            "cuts" => self.is_cut = true,
            "sample_pages" => self.pages = sample_of(alloc, value)?,
            "step" => self.step = number_of(value)?,
            "room" => self.room = number_of(value)?,
            "fails" => self.add_fail(alloc, value)?,
            _ => return Ok(false),
        }
        Ok(true)
    }

    /// Takes a line that says what is due.
    fn take_due(&mut self, alloc: Global, key: &str, value: &str) -> Result<()> {
        match key {
            "command" => self.due.command = Some(text_of(alloc, value)?),
            "ends" => self.add_end(alloc, value)?,
            "status" => self.due.status = Some(number_of(value)?),
            "text" => self.due.text = Some(bytes_of(alloc, value)?),
            "each" => self.add_each(alloc, value)?,
            "calls" => self.due.calls = Some(Calls::written(value)?),
            "target" => self.due.target = Some(Target::written(alloc, value)?),
            _ => bail!("another key"),
        }
        Ok(())
    }
}

/// The rows of a table.
pub(crate) fn rows_of(alloc: Global, text: &str) -> Result<Vec<Row>> {
    let mut rows: Vec<Row> = Vec::new(alloc);
    for line in text.lines() {
        if line.is_empty() || line.starts_with('#') {
            continue;
        }
        let (key, value) = line.split_once(' ').unwrap_or((line, ""));
        if key == "row" {
            rows.push(Row::new(alloc, value)?)?;
            continue;
        }
        let row = rows.last_mut().context("a line in front of the first row")?;
        if !row.take_given(alloc, key, value)? {
            row.take_due(alloc, key, value)?;
        }
    }
    Ok(rows)
}
