//! Texts of cells, and how what is seen of a call is written.
ghost use Rattle.std.specs.Prelude.{◌≡◌, ◌++◌, ◌==◌, if◌then◌else◌, IfOk, OnOk, codes, map, option_map, string_bytes};
ghost use Rattle.std.specs.List.{slice_split};
ghost use Rattle.row_tables.specs.SeenTexts.{quoted, written_name};

use anyhow::Result;
use std::alloc::Global;

/// A text of one's own.
pub fn owned(alloc: Global, text: &str) -> Result<String>
    ensures { IfOk result (λ own. string_bytes own ≡ text.now) }
{
    Ok(String::from_str(alloc, text)?)
}

/// How a table says whether something holds.
pub fn yes_or_no(holds: bool) -> &'static str
    ensures { result.now ≡ (if holds then codes "yes" else codes "no") }
{
    if holds { "yes" } else { "no" }
}

/// A value in quotes, where there is one.
pub fn quoted(alloc: Global, value: Option<&str>) -> Result<String>
    ensures { IfOk result (λ text. string_bytes text ≡ quoted (option_map (λ v. v.now) value.entry)) }
{
    match value {
        Some(value) => Ok(format!(in alloc; "\"{value}\"")?),
        None => owned(alloc, "none"),
    }
}

/// Appends a name, with its namespace in braces where it has one.
pub fn push_name(text: &mut String, ns: &str, local: &str) -> Result<()>
    ensures { OnOk result (string_bytes text.new ≡ string_bytes text.old ++ written_name ns.now local.now) }
{
    if !ns.is_empty() {
        write!(text, "{{{ns}}}")?;
    }
    text.push_str(local)?;
    Ok(())
}

/// The words of a text: what stands between its spaces.
pub fn words_of<'t>(alloc: Global, text: &'t str) -> Result<Vec<&'t str>>
    ensures { IfOk result (λ words. map (λ word. word.now) words.items ≡ slice_split (λ b. b == 32) text.now) }
{
    Ok(text.split(' ').collect(alloc)?)
}
