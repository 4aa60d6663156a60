//! Texts as keys of tables.
ghost use Rattle.std.specs.Prelude.{◌≡◌, ◌<◌};
ghost use Rattle.text_map.specs.Hashes.{class_of as spec_class_of, front_of as spec_front_of, hash_of as spec_hash_of};

mod alike;

use std::hash::{FoldHasher, Hasher};

/// A text as a table keeps it. Its number isn't kept, since that would make the tables much larger.
#[derive(Clone, Copy)]
pub(crate) struct Kept<'a> {
    pub text: &'a str,
}

/// A text that is looked for, with the numbers that go by its bytes, so that it's gone through for them once: by all of them, and by
/// all but the last two. Texts that count something differ at their end, and those that follow each other go to one table.
#[derive(Clone, Copy)]
pub(crate) struct Key<'a> {
    pub number: u64,
    front: u64,
    pub text: &'a str,
    pub ghost numbered: { number ≡ spec_hash_of text.now },
    ghost fronted: { front ≡ spec_hash_of (spec_front_of text.now) },
}

/// A number that goes by bytes.
#[tactic(auto, unfolding(crate::specs::Hashes::hash_of))]
fn hash_of_bytes(bytes: &[u8]) -> u64
    ensures { result ≡ spec_hash_of bytes.now }
{
    let mut hasher = FoldHasher::default();
    hasher.write(bytes);
    hasher.finish()
}

/// A number that goes by the bytes of a text.
pub(crate) fn hash_of(text: &str) -> u64
    ensures { result ≡ spec_hash_of text.now }
{
    hash_of_bytes(text.as_bytes())
}

/// The bytes of a text without the last two.
fn front_of(text: &str) -> &[u8]
    ensures { result.now ≡ spec_front_of text.now }
{
    let bytes = text.as_bytes();
    &bytes[..bytes.len().saturating_sub(2)]
}

impl<'a> Key<'a> {
    /// The key of a text.
    pub fn of(text: &'a str) -> Key<'a>
        ensures { result.text ≡ text.entry }
    {
        Key {
            number: hash_of(text),
            front: hash_of_bytes(front_of(text)),
            text,
        }
    }

    /// The class of the text among so many, a power of two.
    #[tactic(auto, using(std::proofs::lemmas::Nat::and_le_r), unfolding(crate::specs::Hashes::class_of))]
    pub fn class(self, count: usize) -> usize
        requires { 0 < count }
        ensures value { result ≡ spec_class_of self.entry.text.now count }
        ensures within { result < count }
    {
        self.front as usize & (count - 1)
    }
}
