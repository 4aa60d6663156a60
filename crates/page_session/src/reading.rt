//! Reading a page, until sums of what was read pass their numbers.
ghost use Rattle.std.specs.Prelude.{◌≡◌, ◌+◌, ◌^◌, ◌<◌, ◌≤◌, [], ℕ, List, Option, length, vec_len, true, false};
ghost use Rattle.std.specs.Prelude.{IsTrue, IfOk, IfSome, OnOk};
ghost use Rattle.ix_base.specs.declared.limits.TheConstants.{LONGEST_NAME, PIECE};
ghost use Rattle.targets.specs.Breaches.{tags_in};
ghost use Rattle.page_session.specs.PieceReads.{AsksFor, HasFed, HaveGrown, IsWhole, LeavesSource, MayGrow, is_within};
ghost use Rattle.page_session.specs.Sources.{source_told};
ghost use Rattle.page_session.specs.declared.reading.Sums.{Sums as SumsOf};

use crate::taking::PageTaker;
use ix_base::limits::PIECE;
use ix_base::{NoMemory, PageSource, zeros};
use std::alloc::Global;
use thiserror::Error;

/// Why a page was not read.
#[derive(Debug, Drop, Error)]
pub enum ReadError {
    #[error("a page can't be read")]
    Failed,
    #[error("no memory is left")]
    NoMemory,
}

/// How many bytes were read, and how many of them are `<`.
#[derive(Clone, Copy)]
pub struct Sums {
    pub bytes: u64,
    pub tags: u64,
}

impl Sums {
    /// Whether neither sum is above its number.
    pub fn is_within(self, most: Sums) -> bool
        ensures { result ≡ is_within self most }
    {
        self.bytes <= most.bytes && self.tags <= most.tags
    }
}

/// Room for what a read gives.
pub fn buffer(alloc: Global) -> Result<Vec<u8>, NoMemory>
    ensures { IfOk result (λ v. vec_len v ≡ PIECE) }
{
    zeros(alloc, PIECE)
}

/// So many bytes are counted together, by a number of one byte, so that a compiler can let several be counted in one step.
const BLOCK: usize = 192;

/// How many bytes of a block are `<`.
fn tags_of_block(block: &[u8]) -> u8
    requires { length block.now < 256 }
    ensures value { result ≡ tags_in block.now }
    ensures most { result ≤ length block.now }
{
    let mut count = 0;
    for byte in block {
        count += u8::from(*byte == b'<');
    }
    count
}

/// How many bytes of a piece are `<`.
pub fn count_tags(piece: &[u8]) -> u64
    ensures value { result ≡ tags_in piece.now }
    ensures most { result ≤ length piece.now }
{
    let mut count = 0;
    let mut rest = piece;
    'parts: while rest.len() > BLOCK {
        let (block, behind) = rest.split_at(BLOCK);
        count += u64::from(tags_of_block(block));
        rest = behind;
    }
    count + u64::from(tags_of_block(rest))
}

/// Reads a piece, has it taken and adds to the sums. It answers whether there was any.
fn read_piece<P: PageSource, T: PageTaker>(
    pages: &mut P,
    buffer: &mut [u8],
    taker: &mut T,
    sums: &mut Sums,
) -> Result<bool, ReadError>
    requires count { P.faults pages.old + 1 < 2 ^ 64 }
    requires started { IsTrue (P.started pages.old) }
    requires room { 0 < length buffer.old }
    requires took { (fresh : T) × ((b : List ℕ) × T.took fresh b taker.old × (length b ≤ sums.old.bytes)) }
    requires sums { (sums.old.tags ≤ sums.old.bytes) × (sums.old.bytes + length buffer.old < 2 ^ 64) }
    ensures reads { OnOk result ((fresh : T) (page : Option (List ℕ)) (before : SumsOf)
        → HasFed (λ b. T.took fresh b taker.old) page (P.left pages.old) before sums.old
        → HasFed (λ b. T.took fresh b taker.new) page (P.left pages.new) before sums.new) }
    ensures more { IfOk result (λ more. (more ≡ false → IfSome (P.left pages.new) (λ rest. rest ≡ []))
        × (more ≡ true → sums.old.bytes < sums.new.bytes)) }
    ensures sums { OnOk result ((sums.new.bytes ≤ sums.old.bytes + length buffer.old) × (sums.new.tags ≤ sums.new.bytes)) }
    ensures source { LeavesSource (source_told P.PageSource pages.old) (source_told P.PageSource pages.new) result
        × OnOk result (P.started pages.new ≡ P.started pages.old) }
{
    let n = match pages.read(buffer) {
        Ok(n) => n,
        Err(_) => return Err(ReadError::Failed),
    };
    let piece = &buffer[..n];
    let Ok(()) = taker.take(piece) else {
        return Err(ReadError::NoMemory);
    };
    sums.bytes += n as u64;
    sums.tags += count_tags(piece);
    Ok(n > 0)
}

/// Reads a page, has it taken by what had taken nothing, and adds to the sums. It stops once one of these is above its number.
pub fn read_page<P: PageSource, T: PageTaker>(
    pages: &mut P,
    name: &str,
    buffer: &mut [u8],
    taker: &mut T,
    sums: &mut Sums,
    most: Sums,
) -> Result<(), ReadError>
    requires count { P.faults pages.old + 1 < 2 ^ 64 }
    requires name { length name.now ≤ LONGEST_NAME }
    requires room { length buffer.old ≡ PIECE }
    requires fresh { T.took taker.old [] taker.old }
    requires sums { MayGrow sums.old most }
    ensures reads { OnOk result (HasFed (λ b. T.took taker.old b taker.new) (P.page pages.old name.now) (P.left pages.new)
        sums.old sums.new) }
    ensures whole { OnOk result (IsWhole (P.page pages.old name.now) (P.left pages.new) sums.new most) }
    ensures sums { OnOk result (HaveGrown sums.new most) }
    ensures asks { AsksFor name.now (source_told P.PageSource pages.old) (source_told P.PageSource pages.new) result }
{
    if pages.start(name).is_err() {
        return Err(ReadError::Failed);
    }
    while sums.is_within(most) {
        if !read_piece(pages, buffer, taker, sums)? {
            break;
        }
    }
    Ok(())
}
