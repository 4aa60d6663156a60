//! A file system that opens files, and refuses all else.
use crate::slow::Slow;
use std::alloc::Allocator;
use std::fs::{Metadata, OpenFile, OpenOptions};
use std::io;
use std::io::{Seek, SeekFrom};
use std::rt::Files;

/// A file system that opens files, whose files and folders can't be synced and take no permissions.
#[derive(Drop)]
pub struct Unsteady;

/// That it can't be done.
fn refused<T>() -> io::Result<T> {
    Err(io::Error::from(io::ErrorKind::ResourceBusy))
}

impl Seek for Slow {
    fn seek(&mut self, _to: SeekFrom) -> io::Result<u64> {
        refused()
    }
}

impl OpenFile for Slow {
    fn metadata(&self) -> io::Result<Metadata> {
        refused()
    }

    fn set_len(&self, _size: u64) -> io::Result<()> {
        refused()
    }

    fn sync_all(&self) -> io::Result<()> {
        refused()
    }

    fn sync_data(&self) -> io::Result<()> {
        refused()
    }
}

impl Files for Unsteady {
    type File = Slow;

    type Dir = Slow;

    fn open_file(&self, _how: &OpenOptions, _path: &str) -> io::Result<Slow> {
        Ok(Slow::quick())
    }

    fn open_dir(&self, _path: &str) -> io::Result<Slow> {
        refused()
    }

    fn metadata(&self, _path: &str) -> io::Result<Metadata> {
        refused()
    }

    fn symlink_metadata(&self, _path: &str) -> io::Result<Metadata> {
        refused()
    }

    fn copy(&self, _from: &str, _to: &str) -> io::Result<u64> {
        refused()
    }

    fn rename(&self, _from: &str, _to: &str) -> io::Result<()> {
        refused()
    }

    fn remove_file(&self, _path: &str) -> io::Result<()> {
        refused()
    }

    fn create_dir(&self, _path: &str) -> io::Result<()> {
        refused()
    }

    fn remove_dir(&self, _path: &str) -> io::Result<()> {
        refused()
    }

    fn remove_dir_all<B: Allocator>(&self, _alloc: B, _path: &str) -> io::Result<()> {
        refused()
    }
}
