//! The targets of the program.
ghost use Rattle.std.specs.Prelude.{◌≡◌, ◌+◌, [], IfOk, IfSome, IsTrue, None, OnErr, OnOk, is_some, length};
ghost use Rattle.ixds_files.specs.Parts.{LooksAtMost, cleared};
ghost use Rattle.ixds_files.specs.TargetCalls.{IsOpened};
ghost use Rattle.ixds_files.specs.TargetPath.{target_path};

use crate::blamed::Blamed;
use crate::cause::Cause;
use crate::folder::Folder;
use crate::parts::{Part, clear, part_of, path_of, placed};
use crate::writing::put_all;
use ix_base::{Failed, NoMemory, TargetSink, Text};
use std::alloc::Global;

/// Targets that are files: `DIR/instance.xbrl` the default one, and `DIR/instance-T.xbrl` the target T. The directory
/// must be there. A target is written in a part of its own beside its place, and takes its place when it is finished: an
/// instance that stands there is whole, before and after. It tells nothing of content.
pub struct FileTargets<F: Folder + Drop> {
    alloc: Global,
    folder: F,
    part: Option<Part<F::File>>,
    asked: Option<(Text, Text)>,
    asked_len: usize,
    faults: u64,
    cause: Option<Cause>,
}

impl<F: Folder + Drop> Drop for FileTargets<F> {
    fn drop(self) {
        let FileTargets {
            alloc: _,
            folder: _,
            part: _,
            asked: _,
            asked_len: _,
            faults: _,
            cause: _,
        } = self;
    }
}

impl<F: Folder + Drop> FileTargets<F> {
    /// No target is begun, and no call has failed yet.
    pub fn new(alloc: Global, folder: F) -> FileTargets<F>
        ensures faults { result.faults ≡ 0 }
        ensures cause { result.cause ≡ None }
    {
        FileTargets {
            alloc,
            folder,
            part: None,
            asked: None,
            asked_len: 0,
            faults: 0,
            cause: None,
        }
    }
}

/// Two words, where there is memory for them.
fn words_kept(alloc: Global, dir: &str, target: &str) -> Result<(Text, Text), NoMemory>
    ensures { IfOk result (λ words. words ≡ (dir.now, target.now)) }
{
    let dir = Text::of(alloc, dir)?;
    let target = Text::of(alloc, target)?;
    Ok((dir, target))
}

impl<F: Folder + Drop> FileTargets<F> {
    ghost use Rattle.ixds_files.specs.PartPlaces.{lying};

    /// Removes the part that still lies beside its place.
    fn clear(&mut self)
        ensures same { self.new ≡ record self.old { folder = self.new.folder; part = self.new.part } }
        ensures deeds { F.deeds self.new.folder ≡ cleared (lying self.old.part) (F.deeds self.old.folder) }
        ensures gone { lying self.new.part ≡ None }
        ensures part { is_some self.new.part ≡ is_some self.old.part }
        ensures file { IfSome self.old.part (λ p. IfSome self.new.part (λ q. q.file ≡ p.file)) }
    {
        if let Some(part) = &mut self.part {
            clear(&mut self.folder, part);
        }
    }

    /// Makes the part of a target, and keeps the two words.
    fn open(&mut self, dir: &str, target: &str) -> Result<Part<F::File>, Cause>
        ensures faults { self.new.faults ≡ self.old.faults }
        ensures cause { self.new.cause ≡ self.old.cause }
        ensures gone { lying self.new.part ≡ None }
        ensures part { is_some self.new.part ≡ is_some self.old.part }
        ensures asked { IfSome self.new.asked (λ words. words ≡ (dir.now, target.now)) }
        ensures asked_len { self.new.asked_len ≡ length dir.now + length target.now }
        ensures known { OnOk result (IsTrue (is_some self.new.asked)) }
        ensures made { IfOk result (IsOpened F.File.contents dir.now target.now
            (cleared (lying self.old.part) (F.deeds self.old.folder)) (F.deeds self.new.folder)) }
        ensures unmade { OnErr result (LooksAtMost (target_path dir.now target.now)
            (cleared (lying self.old.part) (F.deeds self.old.folder)) (F.deeds self.new.folder)) }
    {
        self.clear();
        self.asked = None;
        self.asked_len = dir.len() + target.len();
        let words = words_kept(self.alloc, dir, target)?;
        self.asked = Some(words);
        part_of(self.alloc, &mut self.folder, dir, target)
    }
}

impl<F: Folder + Drop> TargetSink for FileTargets<F> {
    ghost use Rattle.std.specs.Prelude.{is_err, ◌^◌, ◌<◌};
    ghost use Rattle.ix_base.specs.Outside.{IsCounted};
    ghost use Rattle.ixds_files.specs.TargetCalls.{BeginsPart, FinishesPart, PutsPart};

    ghost faults = { λ t. t.faults };

    ghost last_failed = { λ t. is_some t.cause };

    ghost numbers = { λ _. [] };

    ghost targets = { λ _. None };

    ghost is_open = { λ t. is_some t.part };

    ghost asked = { λ t. t.asked };

    ghost asked_len = { λ t. t.asked_len };

    fn begin(&mut self, dir: &str, target: &str) -> Result<(), Failed>
        requires { self.old.faults + 1 < 2 ^ 64 }
        ensures counted { IsCounted self.old.faults self.new.faults (is_some self.new.cause) [] [] result }
        ensures opened { OnOk result (IsTrue (is_some self.new.part)) }
        ensures kept { OnErr result (is_some self.new.part ≡ is_some self.old.part) }
        ensures asked { IfSome self.new.asked (λ words. words ≡ (dir.now, target.now)) }
        ensures asked_len { self.new.asked_len ≡ length dir.now + length target.now }
        ensures known { OnOk result (IsTrue (is_some self.new.asked)) }
        ensures exact { BeginsPart F.File.contents dir.now target.now self.old.part self.new.part
            (F.deeds self.old.folder) (F.deeds self.new.folder) result }
    {
        self.cause = None;
        match self.open(dir, target) {
            Ok(part) => {
                self.part = Some(part);
                Ok(())
            }
            Err(cause) => {
                self.faults += 1;
                self.cause = Some(cause);
                Err(Failed)
            }
        }
    }

    fn put(&mut self, piece: &[u8]) -> Result<(), Failed>
        requires count { self.old.faults + 1 < 2 ^ 64 }
        requires opened { IsTrue (is_some self.old.part) }
        ensures counted { IsCounted self.old.faults self.new.faults (is_some self.new.cause) [] [] result }
        ensures opened { IsTrue (is_some self.new.part) }
        ensures asked { self.new.asked ≡ self.old.asked }
        ensures asked_len { self.new.asked_len ≡ self.old.asked_len }
        ensures exact { PutsPart F.File.contents piece.now self.old.part self.new.part
            (F.deeds self.old.folder) (F.deeds self.new.folder) result }
    {
        let put = match &mut self.part {
            Some(part) => put_all(&mut part.file, piece),
            None => unreachable!(),
        };
        self.cause = put.err();
        if self.cause.is_none() {
            return Ok(());
        }
        self.clear();
        self.faults += 1;
        Err(Failed)
    }

    fn finish(&mut self) -> Result<(), Failed>
        requires count { self.old.faults + 1 < 2 ^ 64 }
        requires opened { IsTrue (is_some self.old.part) }
        ensures counted { IsCounted self.old.faults self.new.faults (is_some self.new.cause) [] [] result }
        ensures closed { is_some self.new.part ≡ is_err result }
        ensures asked { self.new.asked ≡ self.old.asked }
        ensures asked_len { self.new.asked_len ≡ self.old.asked_len }
        ensures exact { FinishesPart F.File.contents self.old.part self.new.part
            (F.deeds self.old.folder) (F.deeds self.new.folder) result }
    {
        let placed = match &mut self.part {
            Some(part) => placed(&mut self.folder, part),
            None => unreachable!(),
        };
        self.cause = placed.err();
        if self.cause.is_none() {
            self.part = None;
            return Ok(());
        }
        self.faults += 1;
        Err(Failed)
    }
}

impl<F: Folder + Drop> Blamed for FileTargets<F> {
    ghost use Rattle.std.specs.Prelude.{option_map};

    ghost cause = { λ t. t.cause };

    // The path of the target that was asked for last.
    ghost name = { λ t. option_map (λ words. target_path words.0 words.1) t.asked };

    fn cause(&self) -> Option<Cause> {
        self.cause
    }

    fn name(&self, alloc: Global) -> Result<Vec<u8>, NoMemory> {
        let Some((dir, target)) = &self.asked else {
            return Err(NoMemory);
        };
        let path = path_of(alloc, dir.as_str(), target.as_str())?;
        let name = path.as_str().as_bytes().to_vec(alloc)?;
        Ok(name)
    }
}
