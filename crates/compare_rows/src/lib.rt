//! What the programs of rows tell of bytes that aren't as they are due.
#![tactic(auto)]

ghost use Rattle.std.specs.Prelude.{◌≡◌, None, IfOk};

use anyhow::Result;
use std::alloc::Global;
use std::str;

/// The line of a number in a text, from 0.
fn line_at(text: &[u8], number: usize) -> &str {
    match text.split(|b| *b == b'\n').nth(number) {
        Some(line) => str::from_utf8(line).unwrap_or("(not UTF-8)"),
        None => "(no line)",
    }
}

/// The first line in which two texts differ, where they do, as it is due and as it was seen.
pub fn differing_line(alloc: Global, what: &str, due: &[u8], seen: &[u8]) -> Result<Option<String>>
    ensures { IfOk result (λ told. told ≡ None → seen.now ≡ due.now) }
{
    if due == seen {
        return Ok(None);
    }
    let due_lines = due.split(|b| *b == b'\n');
    let seen_lines = seen.split(|b| *b == b'\n');
    let same = due_lines
        .zip(seen_lines)
        .take_while(|(a, b)| a == b)
        .count();
    let (due, seen) = (line_at(due, same), line_at(seen, same));
    let number = same.saturating_add(1);
    Ok(Some(format!(in alloc; "line {number} of {what} is {seen:?}, and {due:?} is due")?))
}
