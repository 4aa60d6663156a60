//! Texts that are put.
use crate::told::blamed;
use anyhow::Result;
use ix_base::TextSink;
use ixds_files::StdoutText;
use std::alloc::Global;
use std::io::Write;

/// What is told of an empty text and one behind it that are put to a writer.
pub(crate) fn put<W: Write + Drop>(alloc: Global, writer: W, text: &[u8]) -> Result<String> {
    let mut out = StdoutText::new(writer);
    let is_put = out.put(b"").is_ok() && out.put(text).is_ok();
    blamed(alloc, &out, is_put)
}
