//! What the reader answers, against what is due.
ghost use Rattle.std.specs.Prelude.{◌≡◌, None, IfOk};
ghost use Rattle.instance_in.specs.Texts.{IsTextOf};
ghost use Rattle.set_rows.specs.AnswerAsDue.{IsAsDue};

use crate::instances::due::Due;
use instance_in::{ReadBack, read};
use instance_out::prepare;
use ix_base::{Content, NoMemory};
use std::alloc::Global;

/// How a content differs from the bytes of which it was read once it is prepared again, where it does.
fn prepared_difference(
    alloc: Global,
    bytes: &[u8],
    content: &Content,
) -> Result<Option<&'static str>, NoMemory>
    requires { IsTextOf bytes.now content.now }
{
    let prepared = prepare(alloc, content)?;
    if prepared.is(bytes) {
        Ok(None)
    } else {
        Ok(Some("prepared again it has other bytes"))
    }
}

/// How the reader's answer differs from what is due of some bytes, where it does.
pub(crate) fn difference(
    alloc: Global,
    due: Due,
    bytes: &[u8],
) -> Result<Option<&'static str>, NoMemory>
    ensures { IfOk result (λ told. told ≡ None → IsAsDue due bytes.now) }
{
    match read(alloc, bytes) {
        Ok(content) => match due {
            Due::ReadBack => prepared_difference(alloc, bytes, &content),
            Due::NotCanonical => Ok(Some("it is read")),
        },
        Err(ReadBack::NotCanonical) => match due {
            Due::ReadBack => Ok(Some("it is refused")),
            Due::NotCanonical => Ok(None),
        },
        Err(ReadBack::NoMemory) => Err(NoMemory),
    }
}
