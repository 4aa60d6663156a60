//! Causes of failed calls.
ghost use Rattle.std.specs.Prelude.{◌≡◌};
ghost use Rattle.std.specs.IoError.{error_kind};
ghost use Rattle.ixds_files.specs.Causes.{cause_of, cause_text};

use ix_base::NoMemory;
use std::alloc::AllocError;
use std::io;
use std::io::ErrorKind;

/// Why a call of the system failed, as far as a person is told.
#[derive(Clone, Copy, Debug, PartialEq, Eq)]
pub enum Cause {
    /// Nothing stands at the path.
    Missing,
    /// The system forbids it.
    Forbidden,
    /// A folder stands at the path.
    Folder,
    /// What stands within the path is no folder.
    NotFolder,
    /// No file can be made beside a target's place.
    PartsStand,
    /// The file system is full.
    Full,
    /// The file would be larger than the file system allows.
    TooLarge,
    /// The file system can't be written.
    ReadOnly,
    /// A name is longer than the file system allows.
    LongName,
    /// Links lead to links.
    Links,
    /// Nobody reads what is written.
    Unread,
    /// Want of memory.
    NoMemory,
    /// Another cause.
    Other,
}

impl From<io::Error> for Cause {
    ghost from_gives = { λ error cause. cause ≡ cause_of (error_kind error) };

    fn from(error: io::Error) -> Cause {
        match error.kind() {
            ErrorKind::NotFound => Cause::Missing,
            ErrorKind::PermissionDenied => Cause::Forbidden,
            ErrorKind::IsADirectory => Cause::Folder,
            ErrorKind::NotADirectory => Cause::NotFolder,
            ErrorKind::AlreadyExists => Cause::PartsStand,
            ErrorKind::StorageFull => Cause::Full,
            ErrorKind::QuotaExceeded => Cause::Full,
            ErrorKind::FileTooLarge => Cause::TooLarge,
            ErrorKind::ReadOnlyFilesystem => Cause::ReadOnly,
            ErrorKind::InvalidFilename => Cause::LongName,
            ErrorKind::FilesystemLoop => Cause::Links,
            ErrorKind::BrokenPipe => Cause::Unread,
            ErrorKind::OutOfMemory => Cause::NoMemory,
            _ => Cause::Other,
        }
    }
}

impl From<NoMemory> for Cause {
    ghost use Rattle.ixds_files.specs.declared.cause.Cause.TheVariants.{NoMemory};

    ghost from_gives = { λ _ cause. cause ≡ NoMemory };

    fn from(_error: NoMemory) -> Cause {
        Cause::NoMemory
    }
}

impl From<AllocError> for Cause {
    ghost use Rattle.ixds_files.specs.declared.cause.Cause.TheVariants.{NoMemory};

    ghost from_gives = { λ _ cause. cause ≡ NoMemory };

    fn from(_error: AllocError) -> Cause {
        Cause::NoMemory
    }
}

impl Cause {
    /// What a person is told.
    pub fn text(self) -> &'static str
        ensures { result.now ≡ cause_text self }
    {
        match self {
            Cause::Missing => "there is no such file or folder",
            Cause::Forbidden => "no permission",
            Cause::Folder => "a folder stands there",
            Cause::NotFolder => "a part of the path is no folder",
            Cause::PartsStand => "too many parts stand beside it",
            Cause::Full => "no space is left",
            Cause::TooLarge => "the file is too large",
            Cause::ReadOnly => "the file system is read-only",
            Cause::LongName => "the name is too long",
            Cause::Links => "too many links",
            Cause::Unread => "nobody reads it",
            Cause::NoMemory => "no memory is left",
            Cause::Other => "the system refuses it",
        }
    }
}
