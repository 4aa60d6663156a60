//! The text that the program prints.
ghost use Rattle.std.specs.Prelude.{◌≡◌, None};

use crate::blamed::Blamed;
use crate::cause::Cause;
use crate::writing::put_all;
use ix_base::{Failed, NoMemory, TextSink};
use std::alloc::Global;
use std::io::Write;

/// A text that goes to a writer, as that of standard output. It tells nothing of content.
#[derive(Drop)]
pub struct StdoutText<W: Write + Drop> {
    writer: W,
    faults: u64,
    cause: Option<Cause>,
}

impl<W: Write + Drop> StdoutText<W> {
    /// No put has failed yet.
    pub fn new(writer: W) -> StdoutText<W>
        ensures faults { result.faults ≡ 0 }
        ensures cause { result.cause ≡ None }
    {
        StdoutText {
            writer,
            faults: 0,
            cause: None,
        }
    }
}

impl<W: Write + Drop> TextSink for StdoutText<W> {
    ghost use Rattle.std.specs.Prelude.{[], is_some, OnOk, ◌+◌, ◌<◌, ◌^◌};
    ghost use Rattle.std.specs.Io.KnownBytes.{Appends};
    ghost use Rattle.ix_base.specs.Outside.{IsCounted};
    ghost use Rattle.ixds_files.specs.Writers.{AppendsFront};

    ghost faults = { λ t. t.faults };

    ghost last_failed = { λ t. is_some t.cause };

    ghost numbers = { λ _. [] };

    ghost taken = { λ _. None };

    fn put(&mut self, piece: &[u8]) -> Result<(), Failed>
        requires { self.old.faults + 1 < 2 ^ 64 }
        ensures counted { IsCounted self.old.faults self.new.faults (is_some self.new.cause) [] [] result }
        ensures whole { OnOk result (Appends (W.contents self.old.writer) (W.contents self.new.writer) piece.now) }
        ensures front { AppendsFront (W.contents self.old.writer) (W.contents self.new.writer) piece.now }
    {
        self.cause = put_all(&mut self.writer, piece).err();
        if self.cause.is_some() {
            self.faults += 1;
            return Err(Failed);
        }
        Ok(())
    }
}

impl<W: Write + Drop> Blamed for StdoutText<W> {
    ghost use Rattle.std.specs.Prelude.{Some, codes};

    ghost cause = { λ t. t.cause };

    ghost name = { λ _. Some (codes "standard output") };

    fn cause(&self) -> Option<Cause> {
        self.cause
    }

    fn name(&self, alloc: Global) -> Result<Vec<u8>, NoMemory> {
        let name = b"standard output".to_vec(alloc)?;
        Ok(name)
    }
}
