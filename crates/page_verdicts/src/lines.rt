//! Lines that are told of pages, each with its line feed.
ghost use Rattle.std.specs.Prelude.{◌≡◌, ◌++◌, IfOk};
ghost use Rattle.page_verdicts.specs.Texts.{cannot_read_line, sample_text};

use ix_base::{NoMemory, Text};
use std::alloc::{AllocError, Global};

/// The line for a page that can't be read.
#[tactic(auto, unfolding(crate::specs::Texts::cannot_read_line))]
pub fn cannot_read(alloc: Global, page: &str) -> Result<Vec<u8>, AllocError>
    ensures { IfOk result (λ v. v.items ≡ cannot_read_line page.now) }
{
    joined(alloc, b"ixds: cannot read ", page.as_bytes(), b"\n")
}

/// Three texts, joined.
fn joined(alloc: Global, a: &[u8], b: &[u8], c: &[u8]) -> Result<Vec<u8>, AllocError>
    ensures { IfOk result (λ v. v.items ≡ a.now ++ (b.now ++ c.now)) }
{
    let mut v = a.to_vec(alloc)?;
    v.extend_from_slice(b)?;
    v.extend_from_slice(c)?;
    Ok(v)
}

/// What is told of a sample of so many facts, which has this summary, and an instance of so many bytes.
#[tactic(auto, unfolding(crate::specs::Texts::sample_text))]
pub fn sample_text(alloc: Global, number: u32, summary: &str, len: u64) -> Result<Text, NoMemory>
    ensures { IfOk result (λ t. t ≡ sample_text number summary.now len) }
{
    let first = format!(in alloc; "sample {number}\n")?;
    let last = format!(in alloc; "{len} bytes\n")?;
    let mut text = Text::of(alloc, first.as_str())?;
    text.push(summary)?;
    text.push(last.as_str())?;
    Ok(text)
}
