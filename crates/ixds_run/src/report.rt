//! The text of a report.
ghost use Rattle.std.specs.Prelude.{◌≡◌, ◌++◌, IfOk, OnOk};
ghost use Rattle.std.specs.List.{flat_map};
ghost use Rattle.ix_base.specs.Breaches.{class_of};
ghost use Rattle.page_verdicts.specs.Texts.{breach_line, place_text};

use ix_base::{Breach, Class, NoMemory, Report, Text};
use std::alloc::Global;

/// Adds the place of a breach.
fn push_place(alloc: Global, text: &mut Text, breach: &Breach) -> Result<(), NoMemory>
    ensures { OnOk result (text.new ≡ text.old ++ place_text (class_of breach.now.rule) breach.now) }
{
    match breach.rule.class() {
        Class::S => text.push("(set)")?,
        _ => {
            let offset = breach.offset.to_string(alloc)?;
            text.push(breach.page.as_str())?;
            text.push(":")?;
            text.push(offset.as_str())?;
        }
    }
    Ok(())
}

/// Adds the line of a breach.
fn push_line(alloc: Global, text: &mut Text, breach: &Breach) -> Result<(), NoMemory>
    ensures { OnOk result (text.new ≡ text.old ++ breach_line breach.now) }
{
    push_place(alloc, text, breach)?;
    text.push(": ")?;
    text.push(breach.rule.code())?;
    text.push(" ")?;
    text.push(breach.rule.text())?;
    text.push("\n")
}

/// The line of a breach.
pub fn line_of(alloc: Global, breach: &Breach) -> Result<Text, NoMemory>
    ensures { IfOk result (λ t. t ≡ breach_line breach.now) }
{
    let mut text = Text::of(alloc, "")?;
    push_line(alloc, &mut text, breach)?;
    Ok(text)
}

/// The lines of a report, each with its line feed.
pub fn lines_of(alloc: Global, report: &Report) -> Result<Text, NoMemory>
    ensures { IfOk result (λ t. t ≡ flat_map breach_line report.now.lines) }
{
    let mut text = Text::of(alloc, "")?;
    for breach in report.lines.as_slice() {
        push_line(alloc, &mut text, breach)?;
    }
    Ok(text)
}
