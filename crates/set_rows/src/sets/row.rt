//! Rows, as their files have them.
use crate::sets::due::Due;
use crate::sets::files::{bytes_of, lines_if_there, lines_of};
use anyhow::{Context, Result, ensure};
use ix_base::Text;
use std::alloc::Global;
use std::rt::Files;

/// A page of a row.
pub struct Page {
    pub name: String,
    pub bytes: Vec<u8>,
}

impl Drop for Page {
    fn drop(self) {
        let Page { name: _, bytes: _ } = self;
    }
}

/// A row: the words of a command and its pages, and what is due.
pub struct Row {
    pub words: Vec<Text>,
    /// The same words with the pages in other orders.
    pub orders: Vec<Vec<Text>>,
    pub pages: Vec<Page>,
    pub due: Due,
    /// For calls of the sink that fail, the number of the call and what then stands.
    pub faults: Vec<String>,
}

impl Drop for Row {
    fn drop(self) {
        let Row {
            words: _,
            orders: _,
            pages: _,
            due: _,
            faults: _,
        } = self;
    }
}

/// Whether a word names a page.
fn is_page(word: &str) -> bool {
    word.ends_with(".html")
}

/// Words as texts.
fn texts_of(alloc: Global, words: &[String]) -> Result<Vec<Text>> {
    let mut texts = Vec::new(alloc);
    for word in words {
        texts.push(Text::of(alloc, word.as_str())?)?;
    }
    Ok(texts)
}

/// The words with the pages in another order, in which their names stand parted by spaces.
fn reordered(alloc: Global, words: &[String], order: &str) -> Result<Vec<Text>> {
    let mut names = order.split(' ');
    let mut texts = Vec::new(alloc);
    for word in words {
        let word = if is_page(word.as_str()) {
            names.next().context("an order has too few pages")?
        } else {
            word.as_str()
        };
        texts.push(Text::of(alloc, word)?)?;
    }
    ensure!(names.next().is_none(), "an order has too many pages");
    Ok(texts)
}

/// The words with the pages in each of these orders.
fn all_reordered(alloc: Global, words: &[String], orders: &[String]) -> Result<Vec<Vec<Text>>> {
    let mut all = Vec::new(alloc);
    for order in orders {
        all.push(reordered(alloc, words, order.as_str())?)?;
    }
    Ok(all)
}

/// The pages among the words of a row.
fn pages_of<R: Files + AllocGlobal>(rt: &R, row: &str, words: &[String]) -> Result<Vec<Page>> {
    let alloc = rt.alloc();
    let mut pages = Vec::new(alloc);
    for word in words {
        if is_page(word.as_str()) {
            let path = format!(in alloc; "{row}/{word}")?;
            pages.push(Page {
                name: String::from_str(alloc, word.as_str())?,
                bytes: bytes_of(rt, path.as_str())?,
            })?;
        }
    }
    Ok(pages)
}

impl Row {
    /// Reads the row of a name.
    pub(crate) fn read<R: Files + AllocGlobal>(rt: &R, name: &str) -> Result<Row> {
        let alloc = rt.alloc();
        let path = format!(in alloc; "{name}/words")?;
        let words = lines_of(rt, path.as_str())?;
        let path = format!(in alloc; "{name}/orders")?;
        let orders = lines_if_there(rt, path.as_str())?;
        let path = format!(in alloc; "{name}/faults")?;
        Ok(Row {
            words: texts_of(alloc, &words)?,
            orders: all_reordered(alloc, &words, &orders)?,
            pages: pages_of(rt, name, &words)?,
            due: Due::read(rt, name)?,
            faults: lines_if_there(rt, path.as_str())?,
        })
    }
}
