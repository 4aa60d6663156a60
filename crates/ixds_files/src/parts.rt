//! The part of a target: the file in which it is written until it is whole.
ghost use Rattle.std.specs.Prelude.{◌≡◌, ◌∷◌, ◌++◌, [], IfOk, IfSome, None, OnErr, OnOk};
ghost use Rattle.std.specs.Io.KnownBytes.{Keeps};
ghost use Rattle.ixds_files.specs.Deeds.{created, did, entered, renamed, synced};
ghost use Rattle.ixds_files.specs.Parts.{LooksAtMost, PlacesPart, SyncsAtMost, cleared};
ghost use Rattle.ixds_files.specs.TargetCalls.{IsOpened, LeavesPart, SamePlace};
ghost use Rattle.ixds_files.specs.TargetPath.{IsPartPath, number_mark, part_path, target_path};

use crate::cause::Cause;
use crate::folder::Folder;
use ix_base::{NoMemory, Text};
use std::alloc::Global;
use std::io::ErrorKind;

/// How many paths are tried for a part.
const TRIED: u32 = 100;

/// The part of a target that is begun.
#[derive(Drop)]
pub struct Part<F> {
    /// The file itself.
    pub file: F,
    /// Where it lies, until it is removed or takes its place.
    pub beside: Option<Text>,
    /// The place of the target.
    pub place: Text,
    /// The folder of both.
    pub dir: Text,
}

/// The path of a target's file.
#[tactic(auto, unfolding(crate::specs::TargetPath::target_path))]
pub fn path_of(alloc: Global, dir: &str, target: &str) -> Result<Text, NoMemory>
    ensures { IfOk result (λ path. path ≡ target_path dir.now target.now) }
{
    let mut path = Text::of(alloc, dir)?;
    path.push("/instance")?;
    if !target.is_empty() {
        path.push("-")?;
        path.push(target)?;
    }
    path.push(".xbrl")?;
    Ok(path)
}

/// Adds `-N` for the number N, and nothing for 0.
fn push_number(alloc: Global, path: &mut Text, number: u32) -> Result<(), Cause>
    ensures { OnOk result (path.new ≡ path.old ++ number_mark number) }
{
    if number > 0 {
        let digits = number.to_string(alloc)?;
        path.push("-")?;
        path.push(digits.as_str())?;
    }
    Ok(())
}

/// The path of a number at which a target may be written until it is whole.
#[tactic(auto, unfolding(crate::specs::TargetPath::part_path))]
fn part_path(alloc: Global, place: &Text, number: u32) -> Result<Text, Cause>
    ensures { IfOk result (λ path. path ≡ part_path place.now number) }
{
    let mut path = Text::of(alloc, place.as_str())?;
    path.push(".part")?;
    push_number(alloc, &mut path, number)?;
    Ok(path)
}

/// Makes an empty file at the first path of a part at which nothing stands, and gives both.
fn made<F: Folder>(
    alloc: Global,
    folder: &mut F,
    place: &Text,
    mode: Option<u32>,
) -> Result<(F::File, Text), Cause>
    ensures path { IfOk result (λ made. IsPartPath place.now made.1) }
    ensures deeds { IfOk result (λ made. F.deeds folder.new ≡ did (created made.1 mode ∷ []) (F.deeds folder.old)) }
    ensures empty { IfSome (F.deeds folder.new) (λ _. IfOk result (λ made. IfSome (F.File.contents made.0) (λ held. held ≡ []))) }
    ensures err { OnErr result (F.deeds folder.new ≡ F.deeds folder.old) }
{
    for number in 0..TRIED {
        let path = part_path(alloc, place, number)?;
        match folder.create(path.as_str(), mode) {
            Ok(file) => return Ok((file, path)),
            Err(error) if error.kind() == ErrorKind::AlreadyExists => {}
            Err(error) => return Err(Cause::from(error)),
        }
    }
    Err(Cause::PartsStand)
}

/// Makes the part of a target, beside its place, with the permissions of the file that stands there.
pub fn part_of<F: Folder>(
    alloc: Global,
    folder: &mut F,
    dir: &str,
    target: &str,
) -> Result<Part<F::File>, Cause>
    ensures opened { IfOk result (IsOpened F.File.contents dir.now target.now (F.deeds folder.old) (F.deeds folder.new)) }
    ensures err { OnErr result (LooksAtMost (target_path dir.now target.now) (F.deeds folder.old) (F.deeds folder.new)) }
{
    let place = path_of(alloc, dir, target)?;
    let dir = Text::of(alloc, dir)?;
    let mode = folder.look(place.as_str())?;
    let (file, beside) = made(alloc, folder, &place, mode)?;
    Ok(Part {
        file,
        beside: Some(beside),
        place,
        dir,
    })
}

/// Has what a part holds stand on the disk, and renames it to its place. It gives the folder.
fn moved<F: Folder>(
    folder: &mut F,
    part: &mut Part<F::File>,
    beside: &Text,
) -> Result<F::Dir, Cause>
    ensures ok { OnOk result (F.deeds folder.new ≡ did (synced (F.File.contents part.old.file) ∷ entered part.old.dir
        ∷ renamed beside.now part.old.place ∷ []) (F.deeds folder.old)) }
    ensures err { OnErr result (SyncsAtMost (F.File.contents part.old.file) part.old.dir (F.deeds folder.old) (F.deeds folder.new)) }
    ensures kept { Keeps (F.File.contents part.old.file) (F.File.contents part.new.file) }
    ensures same { SamePlace part.old part.new }
{
    folder.sync(&mut part.file)?;
    let dir = folder.enter(part.dir.as_str())?;
    folder.rename(beside.as_str(), part.place.as_str())?;
    Ok(dir)
}

/// Puts a part that is written whole in its place, and has its name stand on the disk. A part that can't take its place is
/// removed.
pub fn placed<F: Folder>(folder: &mut F, part: &mut Part<F::File>) -> Result<(), Cause>
    ensures ok { OnOk result (PlacesPart part.old.beside (F.File.contents part.old.file) part.old.dir part.old.place
        (F.deeds folder.old) (F.deeds folder.new)) }
    ensures err { OnErr result (LeavesPart F.File.contents (F.deeds folder.old) (F.deeds folder.new) part.old) }
    ensures gone { part.new.beside ≡ None }
    ensures kept { Keeps (F.File.contents part.old.file) (F.File.contents part.new.file) }
{
    let Some(beside) = part.beside.take() else {
        return Err(Cause::Missing);
    };
    match moved(folder, part, &beside) {
        Ok(dir) => {
            folder.settle(&dir)?;
            Ok(())
        }
        Err(cause) => {
            folder.remove(beside.as_str());
            Err(cause)
        }
    }
}

/// Removes a part that still lies beside its place.
pub fn clear<F: Folder>(folder: &mut F, part: &mut Part<F::File>)
    ensures deeds { F.deeds folder.new ≡ cleared part.old.beside (F.deeds folder.old) }
    ensures gone { part.new.beside ≡ None }
    ensures file { part.new.file ≡ part.old.file }
{
    if let Some(beside) = part.beside.take() {
        folder.remove(beside.as_str());
    }
}
