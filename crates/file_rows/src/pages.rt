//! Pages that are read.
ghost use Rattle.std.specs.Prelude.{◌≡◌, IfOk, IsTrue, true};
ghost use Rattle.ix_base.specs.declared.limits.TheConstants.{LONGEST_NAME};

use crate::told::blamed;
use anyhow::Result;
use ix_base::PageSource;
use ix_base::limits::LONGEST_NAME;
use ixds_files::{Blamed, FilePages, Opener};
use std::alloc::Global;
use std::str;

/// Appends what so many reads of a started page leave in four bytes, and how many they give, up to one that fails. It tells whether
/// none did.
fn push_pieces<P: PageSource>(pages: &mut P, count: u64, text: &mut String) -> Result<bool>
    requires faults { P.faults pages.old ≡ 0 }
    requires started { IsTrue (P.started pages.old) }
    ensures { IfOk result (λ done. done ≡ true → P.faults pages.new ≡ 0) }
{
    'reads: for _ in 0..count {
        let mut buf = *b"....";
        let Ok(n) = pages.read(&mut buf) else {
            return Ok(false);
        };
        write!(
            text,
            "({n} {})",
            str::from_utf8(&buf).unwrap_or("(no text)")
        )?;
    }
    Ok(true)
}

/// Starts the page of a step and reads so often as it says. It tells whether no call failed.
fn push_page<P: PageSource>(pages: &mut P, step: &str, text: &mut String) -> Result<bool>
    requires { P.faults pages.old ≡ 0 }
    ensures { IfOk result (λ done. done ≡ true → P.faults pages.new ≡ 0) }
{
    let (name, count) = step.split_once(':').unwrap_or((step, ""));
    if name.len() > LONGEST_NAME || pages.start(name).is_err() {
        return Ok(false);
    }
    push_pieces(pages, count.parse::<u64>().unwrap_or(0), text)
}

/// Starts and reads pages, up to a call that fails. It tells whether none did.
fn push_pages<P: PageSource>(pages: &mut P, steps: &str, text: &mut String) -> Result<bool>
    requires { P.faults pages.old ≡ 0 }
{
    'steps: for step in steps.split(' ') {
        if !push_page(pages, step, text)? {
            return Ok(false);
        }
    }
    Ok(true)
}

/// Starts and reads pages, and appends what is told of the call that was the last one.
fn push_read<P: PageSource + Blamed>(
    alloc: Global,
    pages: &mut P,
    steps: &str,
    text: &mut String,
) -> Result<()>
    requires { P.PageSource.faults pages.old ≡ 0 }
{
    let is_done = push_pages(pages, steps, text)?;
    let end = blamed(alloc, pages, is_done)?;
    text.push_str(end.as_str())?;
    Ok(())
}

/// What is told of pages that are started and read.
pub(crate) fn read<O: Opener + Drop>(alloc: Global, opener: O, steps: &str) -> Result<String> {
    let mut pages = FilePages::new(opener);
    let mut text = String::new(alloc);
    push_read(alloc, &mut pages, steps, &mut text)?;
    Ok(text)
}
