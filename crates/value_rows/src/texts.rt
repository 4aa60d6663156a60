//! Texts and lists of texts.
use anyhow::Result;
use ix_base::{List, NoMemory, Text, each_once, push_ae, push_te, token};
use row_tables::{owned, words_of};
use std::alloc::Global;

/// A text with another pushed behind it.
pub(crate) fn pushed(alloc: Global, front: &str, behind: &str) -> Result<String> {
    let mut text = Text::of(alloc, front)?;
    text.push(behind)?;
    owned(alloc, text.as_str())
}

/// A text that is pushed into one with room for three bytes.
pub(crate) fn roomy(alloc: Global, pushed: &str) -> Result<String> {
    let mut text = Text::with_room(alloc, 3)?;
    text.push(pushed)?;
    owned(alloc, text.as_str())
}

/// Appends words, parted by spaces.
fn push_joined(words: &[&str], text: &mut String) -> Result<()> {
    for (place, word) in words.iter().enumerate() {
        if 0 < place {
            text.push(' ')?;
        }
        text.push_str(word)?;
    }
    Ok(())
}

/// Pushes words into a list, one by one.
fn push_each<'t>(words: &[&'t str], list: &mut List<&'t str>) -> Result<(), NoMemory> {
    for word in words {
        list.push(*word)?;
    }
    Ok(())
}

/// Appends a list of words that are pushed one by one.
fn push_pushed(alloc: Global, words: &[&str], text: &mut String) -> Result<()> {
    let mut list = List::new(alloc);
    push_each(words, &mut list)?;
    push_joined(list.as_slice(), text)
}

/// Appends a list of words that are pushed one by one, and what it is of them all at once.
fn push_lists(alloc: Global, words: Vec<&str>, text: &mut String) -> Result<()> {
    push_pushed(alloc, &words, text)?;
    text.push_str(", ")?;
    push_joined(List::of(words).as_slice(), text)
}

/// A list of words that are pushed one by one, and what it is of them all at once.
pub(crate) fn listed(alloc: Global, words: &str) -> Result<String> {
    let mut text = String::new(alloc);
    push_lists(alloc, words_of(alloc, words)?, &mut text)?;
    Ok(text)
}

/// Appends words in order, each once.
fn push_once(mut words: Vec<&str>, text: &mut String) -> Result<()> {
    each_once(&mut words);
    push_joined(&words, text)
}

/// Words in order, each once.
pub(crate) fn in_order(alloc: Global, words: &str) -> Result<String> {
    let mut text = String::new(alloc);
    push_once(words_of(alloc, words)?, &mut text)?;
    Ok(text)
}

/// Appends a text as it is written between tags, and as it is written in quotes.
fn push_escaped(text: &str, out: &mut Text) -> Result<(), NoMemory> {
    push_te(text, out)?;
    out.push("=")?;
    push_ae(text, out)
}

/// A text as it is written between tags, and as it is written in quotes.
pub(crate) fn escaped(alloc: Global, text: &str) -> Result<String> {
    let mut out = Text::of(alloc, "=")?;
    push_escaped(text, &mut out)?;
    owned(alloc, out.as_str())
}

/// A text without the white space at its ends.
pub(crate) fn trimmed(alloc: Global, text: &str) -> Result<String> {
    owned(alloc, token(text))
}
