//! Reading a script.
ghost use Rattle.std.specs.Prelude.{◌≡◌, ◌+◌, ◌^◌, ◌<◌, ◌≤◌, IfOk, length};
ghost use Rattle.ix_base.specs.declared.limits.TheConstants.{LONGEST_NAME};
ghost use Rattle.page_session.specs.PieceReads.{Tries};
ghost use Rattle.page_session.specs.Script.{script_of};
ghost use Rattle.page_session.specs.Sessions.{OfPage};
ghost use Rattle.page_session.specs.Sources.{source_told};

use crate::reading::{ReadError, Sums, buffer, read_page};
use crate::script::{Script, parse};
use ix_base::PageSource;
use ix_base::limits::LONGEST_SCRIPT;
use std::alloc::Global;

/// The most that is read of a script.
const MOST: Sums = Sums {
    bytes: LONGEST_SCRIPT as u64,
    tags: u64::MAX,
};

/// Reads a script and tells what it says. It stops once more was read than a script may have.
pub fn read_script<P: PageSource>(
    alloc: Global,
    name: &str,
    pages: &mut P,
) -> Result<Script, ReadError>
    requires count { P.faults pages.old + 1 < 2 ^ 64 }
    requires name { length name.now ≤ LONGEST_NAME }
    ensures says { IfOk result (λ said. OfPage (P.page pages.old name.now) (λ b. said ≡ script_of b)) }
    ensures tries { Tries name.now (source_told P.PageSource pages.old) (source_told P.PageSource pages.new)
        (pages.new ≡ pages.old) result }
{
    let Ok(mut buffer) = buffer(alloc) else {
        return Err(ReadError::NoMemory);
    };
    let mut bytes = Vec::new(alloc);
    let mut sums = Sums { bytes: 0, tags: 0 };
    read_page(
        pages,
        name,
        buffer.as_mut_slice(),
        &mut bytes,
        &mut sums,
        MOST,
    )?;
    match parse(alloc, bytes.as_slice()) {
        Ok(script) => Ok(script),
        Err(_) => Err(ReadError::NoMemory),
    }
}
