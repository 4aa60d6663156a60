//! Objects of the outside that tell why a call of them failed.
ghost use Rattle.std.specs.Prelude.{◌≡◌, ℕ, List, Option, IfOk, Some};
ghost use Rattle.ixds_files.specs.declared.cause.Cause.{Cause};

use crate::cause::Cause;
use ix_base::NoMemory;
use std::alloc::Global;

/// An object of the outside that tells what it was asked for last, and why that failed.
pub trait Blamed {
    /// Why its last call failed, where it did.
    ghost cause: { Self → Option Cause };

    /// What it was asked for last, as a person knows it, where there was memory to keep that.
    ghost name: { Self → Option (List ℕ) };

    /// Why its last call failed, where it did.
    fn cause(&self) -> Option<Cause>
        ensures { result ≡ cause self.now };

    /// What it was asked for last, as a person knows it.
    fn name(&self, alloc: Global) -> Result<Vec<u8>, NoMemory>
        ensures { IfOk result (λ n. name self.now ≡ Some n.items) };
}
