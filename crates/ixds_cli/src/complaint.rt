//! What a person is told on standard error.
ghost use Rattle.std.specs.Prelude.{◌≡◌, ◌⊎◌, ◌++◌, IfOk, IfSome, OnOk, codes};
ghost use Rattle.ixds_cli.specs.Complaints.{Tells, blame, blame_line, cause_mark, complaint, fault_line, shown, shown_byte, told_line, write_blame};
ghost use Rattle.ixds_files.specs.Writers.{AppendsFront};

use crate::wrong::wrong_line;
use ix_base::{NoMemory, Text};
use ixds_files::{Blamed, Cause, put_all};
use ixds_run::Status;
use std::alloc::Global;
use std::io::Write;

/// A byte of a name, as it is shown.
fn shown_byte(b: u8) -> u8
    ensures { result ≡ shown_byte b }
{
    if b >= 32 && b != 127 { b } else { b'?' }
}

/// Adds a name as it is shown.
pub(crate) fn push_shown(line: &mut Vec<u8>, name: &[u8]) -> Result<(), NoMemory>
    ensures { OnOk result (line.new.items ≡ line.old.items ++ shown name.now) }
{
    for b in name {
        line.push(shown_byte(*b))?;
    }
    Ok(())
}

/// Adds a cause, where there is one.
fn push_cause(line: &mut Vec<u8>, cause: Option<Cause>) -> Result<(), NoMemory>
    ensures { OnOk result (line.new.items ≡ line.old.items ++ cause_mark cause) }
{
    if let Some(cause) = cause {
        line.extend_from_slice(b": ")?;
        line.extend_from_slice(cause.text().as_bytes())?;
    }
    Ok(())
}

/// The line that tells what can't be done, with which file, and why.
#[tactic(auto, unfolding(crate::specs::Complaints::fault_line))]
fn fault_line(
    alloc: Global,
    act: &str,
    name: &[u8],
    cause: Option<Cause>,
) -> Result<Vec<u8>, NoMemory>
    ensures { IfOk result (λ line. line.items ≡ fault_line act.now name.now cause) }
{
    let mut line = b"ixds: cannot ".to_vec(alloc)?;
    line.extend_from_slice(act.as_bytes())?;
    push_shown(&mut line, name)?;
    push_cause(&mut line, cause)?;
    line.extend_from_slice(b"\n")?;
    Ok(line)
}

/// The line that blames an object.
fn blame_line<B: Blamed>(alloc: Global, act: &str, blamed: &B) -> Result<Vec<u8>, NoMemory>
    ensures { IfOk result (λ line. line.items ≡ blame_line act.now (blame B.Blamed blamed.now)) }
{
    let name = blamed.name(alloc)?;
    fault_line(alloc, act, name.as_slice(), blamed.cause())
}

/// Tells a line, or where there was no memory for it, that. A line that can't be written is lost, since the status tells of it,
/// too.
fn tell<E: Write>(err: &mut E, line: Result<Vec<u8>, NoMemory>)
    ensures { AppendsFront (E.contents err.old) (E.contents err.new) (told_line line) }
{
    let _ = match line {
        Ok(line) => put_all(err, line.as_slice()),
        Err(_) => put_all(err, b"ixds: no memory is left\n"),
    };
}

/// The line of a write fault: the targets are to blame where their last call failed, and else the text.
fn write_line<S: Blamed, T: Blamed>(alloc: Global, sink: &S, out: &T) -> Result<Vec<u8>, NoMemory>
    ensures { IfOk result (λ line. line.items
        ≡ blame_line (codes "write ") (write_blame (blame S.Blamed sink.now) (blame T.Blamed out.now))) }
{
    if sink.cause().is_some() {
        blame_line(alloc, "write ", sink)
    } else {
        blame_line(alloc, "write ", out)
    }
}

/// Tells what is wrong with words that give no command.
fn tell_wrong<E: Write>(alloc: Global, words: &[Text], err: &mut E) {
    match wrong_line(alloc, words) {
        Ok(Some(line)) => tell(err, Ok(line)),
        Ok(None) => {}
        Err(error) => tell(err, Err(error)),
    }
}

/// Says in one line why a run of these words ended as it did, where it wasn't done and broke no rule.
pub(crate) fn complain<P: Blamed, S: Blamed, T: Blamed, E: Write>(
    alloc: Global,
    words: &[Text],
    status: Status,
    pages: &P,
    sink: &S,
    out: &T,
    err: &mut E,
)
    ensures told { IfSome (complaint status (blame P.Blamed pages.now) (blame S.Blamed sink.now) (blame T.Blamed out.now))
        (Tells (E.contents err.old) (E.contents err.new)) }
    ensures quiet { (status ≡ Status.Done) ⊎ (status ≡ Status.Broken) → err.new ≡ err.old }
{
    match status {
        Status::Done | Status::Broken => {}
        Status::Usage => tell_wrong(alloc, words, err),
        Status::ReadFault => tell(err, blame_line(alloc, "read ", pages)),
        Status::WriteFault => tell(err, write_line(alloc, sink, out)),
        Status::NoMemory => tell(err, Err(NoMemory)),
    }
}
