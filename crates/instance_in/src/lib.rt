//! The reader of instances: the content of which some bytes are the canonical text.
#![tactic(auto)]

ghost use Rattle.std.specs.Prelude.{◌≡◌, ◌&&◌, bytes_eq, IfOk};
ghost use Rattle.ix_base.specs.declared.content.Content.{Content as Meant};
ghost use Rattle.ix_base.specs.PlainContents.{said_of};
ghost use Rattle.instance_lines.specs.Canonical.{canon};
ghost use Rattle.instance_out.specs.Proper.{is_proper};
ghost use Rattle.instance_in.specs.Outcomes.{HasText};
ghost use Rattle.instance_in.specs.Texts.{Gives, IsTextOf};

use instance_out::prepare;
use ix_base::{Content, NoMemory};
use proper_content::is_proper;
use std::alloc::Global;
use thiserror::Error;

mod page;

/// Why bytes aren't read back.
#[derive(Clone, Copy, Debug, PartialEq, Eq, Error)]
pub enum ReadBack {
    /// They aren't the canonical text of a proper content.
    #[error("not the canonical text of a proper content")]
    NotCanonical,
    #[error("no memory is left")]
    NoMemory,
}

/// Whether a content is proper, and some bytes are its canonical text.
fn is_canonical(alloc: Global, content: &Content, bytes: &[u8]) -> Result<bool, NoMemory>
    ensures { IfOk result (λ b. b ≡ (is_proper (said_of content.now) && bytes_eq (canon content.now) bytes.now)) }
{
    if !is_proper(alloc, content)? {
        return Ok(false);
    }
    let prepared = prepare(alloc, content)?;
    Ok(prepared.is(bytes))
}

/// The content of which some bytes are the canonical text, if there is one.
fn content_in(alloc: Global, bytes: &[u8]) -> Result<Option<Content>, NoMemory>
    ensures { IfOk result (λ o. HasText bytes.now o) }
{
    let Some(content) = page::content_of(alloc, bytes)? else {
        return Ok(None);
    };
    if is_canonical(alloc, &content, bytes)? {
        Ok(Some(content))
    } else {
        Ok(None)
    }
}

/// The content of which some bytes are the canonical text.
///
/// Every proper content is read back from its canonical text, and nothing else is read: a text that says the same in another
/// way is refused.
pub fn read(alloc: Global, bytes: &[u8]) -> Result<Content, ReadBack>
    ensures found { IfOk result (λ c. IsTextOf bytes.now c) }
    ensures only { (c : Meant) → IsTextOf bytes.now c → Gives result c }
{
    match content_in(alloc, bytes) {
        Ok(Some(content)) => Ok(content),
        Ok(None) => Err(ReadBack::NotCanonical),
        Err(NoMemory) => Err(ReadBack::NoMemory),
    }
}
