//! The pages of the program.
ghost use Rattle.std.specs.Prelude.{◌≡◌, ◌≤◌, ◌<◌, ◌++◌, ◌∷◌, [], length, take, ℕ, List, Option, IfOk, OnErr, None, option_map};
ghost use Rattle.std.specs.Io.KnownBytes.{Consumes, IsAtEnd, Keeps};
ghost use Rattle.ix_base.specs.declared.limits.TheConstants.{LONGEST_NAME};

use crate::blamed::Blamed;
use crate::cause::Cause;
use ix_base::limits::LONGEST_NAME;
use ix_base::{Failed, NoMemory, PageSource, keep_name};
use std::alloc::Global;
use std::io;
use std::io::Read;

/// What opens the files of pages.
pub trait Opener {
    /// A file that is read.
    type File: Read + Drop;

    /// The paths of all files that it was to open, where it tells them, the last one last.
    ghost opens: { Self → Option (List (List ℕ)) };

    /// Opens the file at a path, to be read from its first byte.
    fn open(&mut self, path: &str) -> io::Result<Self::File>
        ensures { opens self.new ≡ option_map (λ paths. paths ++ path.now ∷ []) (opens self.old) };
}

/// Pages that are files, each under its name as a path. It tells nothing of content.
pub struct FilePages<O: Opener + Drop> {
    opener: O,
    file: Option<O::File>,
    asked: [u8; LONGEST_NAME],
    asked_len: usize,
    faults: u64,
    cause: Option<Cause>,
    ghost kept: { asked_len ≤ LONGEST_NAME },
}

impl<O: Opener + Drop> Drop for FilePages<O> {
    fn drop(self) {
        let FilePages {
            opener: _,
            file: _,
            asked: _,
            asked_len: _,
            faults: _,
            cause: _,
        } = self;
    }
}

impl<O: Opener + Drop> FilePages<O> {
    /// No page is started, and no call has failed yet.
    pub fn new(opener: O) -> FilePages<O>
        ensures faults { result.faults ≡ 0 }
        ensures cause { result.cause ≡ None }
    {
        FilePages {
            opener,
            file: None,
            asked: [0; LONGEST_NAME],
            asked_len: 0,
            faults: 0,
            cause: None,
        }
    }
}

/// Reads a piece, again where the call was interrupted.
pub fn read_some<F: Read>(file: &mut F, buf: &mut [u8]) -> Result<usize, Cause>
    ensures within { IfOk result (λ n. n ≤ length buf.new) }
    ensures bytes { IfOk result (λ n. Consumes (F.remaining file.old) (F.remaining file.new) (take n buf.new)) }
    ensures end { IfOk result (λ n. n ≡ 0 → 0 < length buf.old → IsAtEnd (F.remaining file.new)) }
    ensures fails { OnErr result (Keeps (F.remaining file.old) (F.remaining file.new)) }
{
    'tries: for _ in 0..u64::MAX {
        match file.read(buf) {
            Ok(n) => return Ok(n),
            Err(error) if error.kind() == io::ErrorKind::Interrupted => {}
            Err(error) => return Err(Cause::from(error)),
        }
    }
    Err(Cause::Other)
}

impl<O: Opener + Drop> PageSource for FilePages<O> {
    ghost use Rattle.std.specs.Prelude.{◌+◌, ◌^◌, Some, IsTrue, is_some};
    ghost use Rattle.ix_base.specs.Outside.{Gives, IsCounted, SameNames};
    ghost use Rattle.ixds_files.specs.PageCalls.{ReadsFile};
    ghost use Rattle.ixds_files.specs.Writers.{untold};

    ghost faults = { λ p. p.faults };

    ghost last_failed = { λ p. is_some p.cause };

    ghost numbers = { λ _. [] };

    ghost page = { λ _ _. None };

    ghost left = { λ _. None };

    ghost started = { λ p. is_some p.file };

    ghost asked = { λ p. Some (take p.asked_len p.asked) };

    ghost starts = { λ p. O.opens p.opener };

    fn start(&mut self, name: &str) -> Result<(), Failed> {
        keep_name(&mut self.asked, name);
        self.asked_len = name.len();
        self.file = None;
        self.cause = None;
        match self.opener.open(name) {
            Ok(file) => {
                self.file = Some(file);
                Ok(())
            }
            Err(error) => {
                self.faults += 1;
                self.cause = Some(Cause::from(error));
                Err(Failed)
            }
        }
    }

    fn read(&mut self, buf: &mut [u8]) -> Result<usize, Failed>
        requires count { self.old.faults + 1 < 2 ^ 64 }
        requires started { IsTrue (is_some self.old.file) }
        requires room { 0 < length buf.old }
        ensures counted { IsCounted self.old.faults self.new.faults (is_some self.new.cause) [] [] result }
        ensures started { is_some self.new.file ≡ is_some self.old.file }
        ensures names { SameNames (Some (take self.old.asked_len self.old.asked)) (Some (take self.new.asked_len self.new.asked))
            (O.opens self.old.opener) (O.opens self.new.opener) }
        ensures gives { IfOk result (λ n. Gives untold untold (length buf.old) buf.new n) }
        ensures exact { ReadsFile O.File.remaining self.old.file self.new.file buf.new result }
    {
        let read = match &mut self.file {
            Some(file) => read_some(file, buf),
            None => unreachable!(),
        };
        match read {
            Ok(n) => {
                self.cause = None;
                Ok(n)
            }
            Err(cause) => {
                self.faults += 1;
                self.cause = Some(cause);
                Err(Failed)
            }
        }
    }
}

impl<O: Opener + Drop> Blamed for FilePages<O> {
    ghost use Rattle.std.specs.Prelude.{Some};

    ghost cause = { λ p. p.cause };

    ghost name = { λ p. Some (take p.asked_len p.asked) };

    fn cause(&self) -> Option<Cause> {
        self.cause
    }

    fn name(&self, alloc: Global) -> Result<Vec<u8>, NoMemory> {
        let name = self.asked[..self.asked_len].to_vec(alloc)?;
        Ok(name)
    }
}
