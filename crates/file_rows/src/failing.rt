//! A folder of which one call fails.
ghost use Rattle.std.specs.Prelude.{None};

use ixds_files::Folder;
use std::io;

/// A folder whose call of some number fails, from 1. Removing is no call that counts.
#[derive(Drop)]
pub struct Failing<F> {
    folder: F,
    calls: u64,
    fails: u64,
}

impl<F> Failing<F> {
    /// A folder whose call of the number that is written fails, and none where that is 0.
    pub(crate) fn new(folder: F, fails: &str) -> Failing<F> {
        Failing {
            folder,
            calls: 0,
            fails: fails.parse::<u64>().unwrap_or(0),
        }
    }

    /// Counts a call.
    fn turn(&mut self) -> io::Result<()> {
        self.calls = self.calls.saturating_add(1);
        if self.calls == self.fails {
            return Err(io::Error::from(io::ErrorKind::StorageFull));
        }
        Ok(())
    }
}

impl<F: Folder> Folder for Failing<F> {
    ghost deeds = { λ _. None };

    type File = F::File;

    type Dir = F::Dir;

    fn look(&mut self, path: &str) -> io::Result<Option<u32>> {
        self.turn()?;
        self.folder.look(path)
    }

    fn create(&mut self, path: &str, mode: Option<u32>) -> io::Result<F::File> {
        self.turn()?;
        self.folder.create(path, mode)
    }

    fn sync(&mut self, file: &mut F::File) -> io::Result<()> {
        self.folder.sync(file)?;
        self.turn()
    }

    fn enter(&mut self, dir: &str) -> io::Result<F::Dir> {
        self.turn()?;
        self.folder.enter(dir)
    }

    fn rename(&mut self, from: &str, to: &str) -> io::Result<()> {
        self.turn()?;
        self.folder.rename(from, to)
    }

    fn settle(&mut self, dir: &F::Dir) -> io::Result<()> {
        self.turn()?;
        self.folder.settle(dir)
    }

    fn remove(&mut self, path: &str) {
        self.folder.remove(path);
    }
}
