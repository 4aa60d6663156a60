//! How far a tag goes on, several bytes in one step. Most tags have no `'`, and no `>` but the one that ends them.
ghost use Rattle.std.specs.Prelude.{◌≡◌, ◌==◌, ◌||◌, None};
ghost use Rattle.std.specs.List.{list_all};
ghost use Rattle.page_constructs.specs.Constructs.{after_tag as after_tag_of};
ghost use Rattle.page_constructs.specs.Searches.{GoesOn};
ghost use Rattle.page_constructs.specs.Stops.{is_plain, flipped as flipped_of, flips};

use crate::size::Sought;

/// How many bytes are looked at together, whatever each of them is.
const BLOCK: usize = 16;

/// Whether a byte may end a tag, or opens the rarer quotes.
fn is_rare(byte: u8) -> bool
    ensures { result ≡ (byte == 62 || byte == 39) }
{
    byte == b'>' || byte == b'\''
}

/// Whether no byte does. It looks at all of them, so that a compiler can let it look at several in one step.
fn are_plain(bytes: &[u8]) -> bool
    ensures { result ≡ list_all is_plain bytes.now }
{
    let mut all = true;
    for byte in bytes {
        all = !is_rare(*byte) & all;
    }
    all
}

/// Whether a `"` is open behind a byte.
fn flipped(inside: bool, byte: u8) -> bool
    ensures { result ≡ flipped_of inside byte }
{
    if byte == b'"' { !inside } else { inside }
}

/// Whether a `"` is open behind some bytes.
fn is_inside(before: bool, bytes: &[u8]) -> bool
    ensures { result ≡ flips before bytes.now }
{
    let mut inside = before;
    for byte in bytes {
        inside = flipped(inside, *byte);
    }
    inside
}

/// Behind as many blocks of a tag as have no rare byte, from a place on that is outside quotes.
pub(super) fn behind_parts(text: &[u8], from: usize) -> Sought
    ensures { GoesOn (after_tag_of None) from (after_tag_of result.quote) result.at text.now }
{
    let mut at = from;
    let mut inside = false;
    'parts: while at < text.len() && BLOCK <= text.len() - at && are_plain(&text[at..at + BLOCK]) {
        inside = is_inside(inside, &text[at..at + BLOCK]);
        at += BLOCK;
    }
    if inside {
        return Sought {
            at,
            quote: Some(b'"'),
        };
    }
    Sought { at, quote: None }
}
