//! Reading a page that is put.
ghost use Rattle.std.specs.Prelude.{◌≡◌, ◌<◌, ◌≤◌, ◌+◌, ◌^◌, length, true, IfOk, OnOk, IfSome, None};
ghost use Rattle.ix_base.specs.declared.limits.TheConstants.{LONGEST_NAME};
ghost use Rattle.targets.specs.Breaches.{tags_in};
ghost use Rattle.page_session.specs.Limits.{may_hold, Passes};
ghost use Rattle.page_session.specs.PieceReads.{Tries};
ghost use Rattle.page_session.specs.Sessions.{IsHeld, OfPage};
ghost use Rattle.page_session.specs.Sources.{source_told};

use crate::kept::{Held, held_of};
use crate::reading::{ReadError, Sums, buffer, read_page};
use bumpalo::Bump;
use ix_base::PageSource;
use ix_base::limits::{DEEPEST_ELEMENT, MOST_BYTES_PUT, MOST_TAGS_PUT};
use page_tree::TreeBuilder;
use std::alloc::Global;
use thiserror::Error;

/// The most that all pages that are put have together, replaced and dropped ones included.
const MOST: Sums = Sums {
    bytes: MOST_BYTES_PUT,
    tags: MOST_TAGS_PUT,
};

/// Why a page was not put.
#[derive(Clone, Copy, Debug, PartialEq, Eq, Error)]
pub enum PutFault {
    #[error("too many pages")]
    TooMany,
    #[error("a page can't be read")]
    ReadFault,
    #[error("the session has read too much")]
    Spent,
    #[error("no memory is left")]
    NoMemory,
}

/// Reads the page of this number to its end, and adds to the sums. Nothing is held where these then pass their numbers.
pub fn read_held<'a, P: PageSource>(
    alloc: Global,
    arena: &'a Bump,
    pages: &mut P,
    name: &str,
    number: u32,
    sums: &mut Sums,
) -> Result<Option<Held<'a>>, ReadError>
    requires count { P.faults pages.old + 1 < 2 ^ 64 }
    requires name { length name.now ≤ LONGEST_NAME }
    requires most { may_hold sums.old.bytes sums.old.tags ≡ true }
    requires tags { sums.old.tags ≤ sums.old.bytes }
    ensures held { IfOk result (λ held. IfSome held (λ h. OfPage (P.page pages.old name.now) (λ b. IsHeld h b
        × (sums.new.bytes ≡ sums.old.bytes + length b) × (sums.new.tags ≡ sums.old.tags + tags_in b)))) }
    ensures within { IfOk result (λ held. IfSome held (λ h. may_hold sums.new.bytes sums.new.tags ≡ true)) }
    ensures tags { OnOk result (sums.new.tags ≤ sums.new.bytes) }
    ensures spent { IfOk result (λ held. held ≡ None
        → OfPage (P.page pages.old name.now) (λ b. Passes (sums.old.bytes + length b) (sums.old.tags + tags_in b))) }
    ensures tries { Tries name.now (source_told P.PageSource pages.old) (source_told P.PageSource pages.new)
        (pages.new ≡ pages.old) result }
{
    let Ok(mut buffer) = buffer(alloc) else {
        return Err(ReadError::NoMemory);
    };
    let mut builder = TreeBuilder::new(alloc, arena, number, DEEPEST_ELEMENT);
    read_page(pages, name, buffer.as_mut_slice(), &mut builder, sums, MOST)?;
    if !sums.is_within(MOST) {
        return Ok(None);
    }
    match held_of(builder, number) {
        Ok(held) => Ok(Some(held)),
        Err(_) => Err(ReadError::NoMemory),
    }
}
