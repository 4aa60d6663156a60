//! Takers of pages.
ghost use Rattle.std.specs.Prelude.{◌≡◌, ◌+◌, ◌^◌, ◌<◌, ◌++◌, ℕ, List, OnOk, length};

use ix_base::NoMemory;
use page_tree::TreeBuilder;

/// What takes a page piece by piece.
pub trait PageTaker {
    /// That the first, which had taken nothing, took these bytes and is now the second.
    ghost took: { Self → List ℕ → Self → Type 0 };

    /// Takes the next piece.
    fn take(&mut self, piece: &[u8]) -> Result<(), NoMemory>
        requires { (fresh : Self) × ((b : List ℕ) × took fresh b self.old × (length b + length piece.now < 2 ^ 64)) }
        ensures { OnOk result ((fresh : Self) (b : List ℕ) → took fresh b self.old → took fresh (b ++ piece.now) self.new) };
}

/// By its bytes so far it stands for them, with the limit of depth and the page number as they were.
impl PageTaker for TreeBuilder<'_> {
    ghost use Rattle.page_session.specs.Takers.{HasBuilt};

    ghost took = { λ fresh b t. HasBuilt fresh b t };

    fn take(&mut self, piece: &[u8]) -> Result<(), NoMemory> {
        self.feed(piece)
    }
}

/// It keeps the bytes.
impl PageTaker for Vec<u8> {
    ghost use Rattle.std.specs.Prelude.{◌≡◌};

    ghost took = { λ fresh b v. v.items ≡ b };

    fn take(&mut self, piece: &[u8]) -> Result<(), NoMemory> {
        self.extend_from_slice(piece)?;
        Ok(())
    }
}
