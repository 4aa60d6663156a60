//! The folder in which targets are written.
ghost use Rattle.std.specs.Prelude.{◌≡◌, ◌∷◌, [], List, Option, IfOk, IfSome, OnOk, OnErr};
ghost use Rattle.std.specs.Io.KnownBytes.{Keeps};
ghost use Rattle.ixds_files.specs.Deeds.{Deed, looked, created, synced, entered, renamed, settled, removed, did};

use std::io;
use std::io::Write;

/// The calls of a file system that a target takes. Where a folder tells what it has done, a call that answers Ok has done one
/// thing more, and one that fails nothing.
pub trait Folder {
    /// A file that is written.
    type File: Write + Drop;

    /// The folder itself, opened.
    type Dir: Drop;

    /// What it has done so far, where it tells, the last deed last.
    ghost deeds: { Self → Option (List Deed) };

    /// The permissions of the file that stands at a path, where one does.
    fn look(&mut self, path: &str) -> io::Result<Option<u32>>
        ensures ok { IfOk result (λ found. deeds self.new ≡ did (looked path.now found ∷ []) (deeds self.old)) }
        ensures err { OnErr result (deeds self.new ≡ deeds self.old) };

    /// Makes an empty file at a path, with these permissions where any are asked for. Where something stands, a link too, it
    /// fails with `AlreadyExists`, and leaves that as it is.
    fn create(&mut self, path: &str, mode: Option<u32>) -> io::Result<Self::File>
        ensures ok { OnOk result (deeds self.new ≡ did (created path.now mode ∷ []) (deeds self.old)) }
        ensures err { OnErr result (deeds self.new ≡ deeds self.old) }

        // A folder that tells its deeds makes files that are empty.
        ensures empty { IfSome (deeds self.new) (λ _. IfOk result (λ file. IfSome (Self.File.contents file) (λ held. held ≡ []))) };

    /// Waits until all that was written to a file stands on the disk.
    fn sync(&mut self, file: &mut Self::File) -> io::Result<()>
        ensures ok { OnOk result (deeds self.new ≡ did (synced (Self.File.contents file.old) ∷ []) (deeds self.old)) }
        ensures err { OnErr result (deeds self.new ≡ deeds self.old) }
        ensures kept { Keeps (Self.File.contents file.old) (Self.File.contents file.new) };

    /// Opens the folder at a path.
    fn enter(&mut self, dir: &str) -> io::Result<Self::Dir>
        ensures ok { OnOk result (deeds self.new ≡ did (entered dir.now ∷ []) (deeds self.old)) }
        ensures err { OnErr result (deeds self.new ≡ deeds self.old) };

    /// Gives a file another path, in place of one that stands there.
    fn rename(&mut self, from: &str, to: &str) -> io::Result<()>
        ensures ok { OnOk result (deeds self.new ≡ did (renamed from.now to.now ∷ []) (deeds self.old)) }
        ensures err { OnErr result (deeds self.new ≡ deeds self.old) };

    /// Waits until the names in a folder stand on the disk.
    fn settle(&mut self, dir: &Self::Dir) -> io::Result<()>
        ensures ok { OnOk result (deeds self.new ≡ did (settled ∷ []) (deeds self.old)) }
        ensures err { OnErr result (deeds self.new ≡ deeds self.old) };

    /// Removes the file at a path, where that can be done.
    fn remove(&mut self, path: &str)
        ensures { deeds self.new ≡ did (removed path.now ∷ []) (deeds self.old) };
}
