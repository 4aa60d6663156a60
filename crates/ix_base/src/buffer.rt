//! Buffers into which texts are written, and texts that are kept in them.
ghost use Rattle.std.specs.Prelude.{◌≡◌, ◌≤◌, IfOk, length, take, vec_len};
ghost use Rattle.std.specs.Str.{IsUtf8};
ghost use Rattle.ix_base.specs.declared.limits.TheConstants.{LONGEST_NAME};

use crate::NoMemory;
use crate::limits::LONGEST_NAME;
use crate::text::Text;
use std::alloc::Global;
use std::str;

/// So many zeros.
pub fn zeros(alloc: Global, count: usize) -> Result<Vec<u8>, NoMemory>
    ensures { IfOk result (λ v. vec_len v ≡ count) }
{
    Ok(vec![in alloc; 0u8; count]?)
}

/// The text that the first so many bytes of a buffer are.
pub fn text_at(alloc: Global, buffer: &[u8], count: usize) -> Result<Text, NoMemory>
    requires within { count ≤ length buffer.now }
    requires text { IsUtf8 (take count buffer.now) }
    ensures { IfOk result (λ t. t ≡ take count buffer.now) }
{
    match str::from_utf8(&buffer[..count]) {
        Ok(text) => Text::of(alloc, text),
        Err(_) => unreachable!(),
    }
}

/// Keeps a name of a page at the front of a buffer.
pub fn keep_name(buffer: &mut [u8; LONGEST_NAME], name: &str)
    requires { length name.now ≤ LONGEST_NAME }
    ensures { take (length name.now) buffer.new ≡ name.now }
{
    let n = name.len();
    buffer[..n].copy_from_slice(name.as_bytes());
}
