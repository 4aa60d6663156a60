//! Files that take or give little at a time.
ghost use Rattle.std.specs.Prelude.{◌≤◌, IfOk, None};

use ixds_files::Opener;
use std::io;
use std::io::{Read, Write};

/// A file that is interrupted so often, then takes or gives at most so many bytes at a time, and fails once it has taken or given
/// so many in all.
#[derive(Clone, Copy, Drop)]
pub struct Slow {
    interrupts: u64,
    most: usize,
    end: usize,
}

impl Slow {
    /// The file that three numbers say.
    pub(crate) fn written(text: &str) -> Option<Slow> {
        let (interrupts, rest) = text.split_once(' ')?;
        let (most, end) = rest.split_once(' ')?;
        Some(Slow {
            interrupts: interrupts.parse::<u64>().ok()?,
            most: most.parse::<usize>().ok()?,
            end: end.parse::<usize>().ok()?,
        })
    }

    /// A file that takes and gives what it is asked for.
    pub(crate) fn quick() -> Slow {
        Slow {
            interrupts: 0,
            most: usize::MAX,
            end: usize::MAX,
        }
    }

    /// How many of so many bytes a call takes or gives.
    fn turn(&mut self, len: usize) -> io::Result<usize>
        ensures { IfOk result (λ n. n ≤ len) }
    {
        if self.interrupts > 0 {
            self.interrupts -= 1;
            return Err(io::Error::from(io::ErrorKind::Interrupted));
        }
        if self.end == 0 {
            return Err(io::Error::from(io::ErrorKind::StorageFull));
        }
        let n = len.min(self.most);
        self.end = self.end.saturating_sub(n);
        Ok(n)
    }
}

impl Read for Slow {
    fn read(&mut self, buf: &mut [u8]) -> io::Result<usize> {
        let n = self.turn(buf.len())?;
        buf[..n].fill(b'a');
        Ok(n)
    }
}

impl Write for Slow {
    fn write(&mut self, buf: &[u8]) -> io::Result<usize> {
        self.turn(buf.len())
    }

    fn flush(&mut self) -> io::Result<()> {
        Ok(())
    }
}

/// Every page is such a file.
#[derive(Drop)]
pub struct SlowPages {
    pub file: Slow,
}

impl Opener for SlowPages {
    type File = Slow;

    ghost opens = { λ _. None };

    fn open(&mut self, _path: &str) -> io::Result<Slow> {
        Ok(self.file)
    }
}
