//! The file system of the program.
ghost use Rattle.std.specs.Prelude.{◌≡◌};

use crate::folder::Folder;
use crate::pages::Opener;
use std::fs::{OpenFile, OpenOptions, Permissions};
use std::io::{ErrorKind, Write};
use std::os::unix::fs::{OpenOptionsExt, PermissionsExt};
use std::rt::Files;
use std::{fs, io};

/// Who may read, write and run a file: the other bits of a mode aren't permissions.
const PERMISSIONS: u32 = 0o777;

/// The folders and files of the system. They tell nothing.
#[derive(Drop)]
pub struct SystemFolder<'a, R: Files> {
    rt: &'a R,
}

impl<'a, R: Files> SystemFolder<'a, R> {
    /// Those of this system.
    pub fn new(rt: &'a R) -> SystemFolder<'a, R>
        ensures { result.rt ≡ rt.entry }
    {
        SystemFolder { rt }
    }

    /// Gives a file that was just made its permissions, or removes it.
    fn permitted(&self, file: R::File, path: &str, mode: u32) -> io::Result<R::File> {
        match file.set_permissions(Permissions::from_mode(mode)) {
            Ok(()) => Ok(file),
            Err(error) => {
                let _ = fs::remove_file(self.rt, path);
                Err(error)
            }
        }
    }
}

impl<'a, R: Files> Opener for SystemFolder<'a, R> {
    ghost use Rattle.std.specs.Prelude.{None};

    type File = R::File;

    ghost opens = { λ _. None };

    fn open(&mut self, path: &str) -> io::Result<R::File> {
        fs::open(self.rt, path)
    }
}

impl<'a, R: Files> Folder for SystemFolder<'a, R> {
    ghost use Rattle.std.specs.Prelude.{None};

    type File = R::File;

    type Dir = R::File;

    ghost deeds = { λ _. None };

    fn look(&mut self, path: &str) -> io::Result<Option<u32>> {
        match fs::metadata(self.rt, path) {
            Ok(found) if found.is_file() => Ok(Some(found.permissions().mode() & PERMISSIONS)),
            Ok(_) => Ok(None),
            Err(error) => match error.kind() {
                ErrorKind::NotFound => Ok(None),
                ErrorKind::FilesystemLoop => Ok(None),
                _ => Err(error),
            },
        }
    }

    fn create(&mut self, path: &str, mode: Option<u32>) -> io::Result<R::File> {
        let mut how = OpenOptions::new();
        how.write(true).create_new(true);
        match mode {
            None => how.open(self.rt, path),
            Some(mode) => {
                // The system takes away what its mask forbids, so the permissions are given again.
                how.mode(mode);
                let file = how.open(self.rt, path)?;
                self.permitted(file, path, mode)
            }
        }
    }

    fn sync(&mut self, file: &mut R::File) -> io::Result<()> {
        file.flush()?;
        file.sync_all()
    }

    fn enter(&mut self, dir: &str) -> io::Result<R::File> {
        fs::open(self.rt, dir)
    }

    fn rename(&mut self, from: &str, to: &str) -> io::Result<()> {
        fs::rename(self.rt, from, to)
    }

    fn settle(&mut self, dir: &R::File) -> io::Result<()> {
        dir.sync_all()
    }

    fn remove(&mut self, path: &str) {
        let _ = fs::remove_file(self.rt, path);
    }
}
