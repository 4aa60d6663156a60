//! Finding lists of elements by place.
ghost use Rattle.std.specs.Prelude.{◌≡◌, ◌==◌, ◌&&◌, ℕ, OnOk, option_map};
ghost use Rattle.id_table.specs.Slices.{put_first, slice_at, spots_in};

use crate::slice::Slice;
use indexmap::IndexMap;
use ix_base::NoMemory;

/// Lists of elements, by places: a page and an offset in it.
pub type Slices<'a> = IndexMap<(u32, u64), Slice<'a>>;

/// Enters elements at a place, unless some are entered there.
pub fn enter_slice<'a>(
    slices: &mut Slices<'a>,
    key: (u32, u64),
    slice: Slice<'a>,
) -> Result<(), NoMemory>
    ensures { OnOk result ((page offset : ℕ) → slice_at slices.new page offset
        ≡ put_first (slice_at slices.old page offset) ((key.0 == page) && (key.1 == offset)) (spots_in slice.entry)) }
{
    if slices.contains_key(&key) {
        return Ok(());
    }
    slices.insert(key, slice)?;
    Ok(())
}

/// The elements that are entered at a place, if some are. It takes no memory.
pub fn slice_in<'a>(slices: &Slices<'a>, key: (u32, u64)) -> Option<Slice<'a>>
    ensures { option_map spots_in result ≡ slice_at slices.now key.0 key.1 }
{
    slices.get(&key).copied()
}
