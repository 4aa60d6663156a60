//! Tables from texts to values.
ghost use Rattle.std.specs.Prelude.{◌≡◌, ◌++◌, ◌∷◌, [], ℕ, List, IfOk, OnOk, OnErr, Some, None, if◌then◌else◌, bytes_eq};
ghost use Rattle.std.specs.Option.{option_copied};
ghost use Rattle.text_map.specs.Texts.{IsSet, get_in, items_in};

use crate::key::Key;
use crate::tables::Tables;
use ix_base::NoMemory;
use std::alloc::Global;
use std::marker::Model;

/// A table from texts to values.
///
/// Contracts see the texts with their values. A look-up compares its text with 1,152 others at most and a logarithm of their number,
/// whatever the texts are. The first texts, and by far most of all others, are found by their hashes.
pub struct TextMap<'a, V> {
    tables: Tables<'a, V>,
}

impl<'a, V: Drop> Drop for TextMap<'a, V> {
    fn drop(self) {
        let TextMap { tables: _ } = self;
    }
}

impl<'a, V> Model for TextMap<'a, V> {
    ghost use Rattle.std.specs.Coded.{coded×, coded_list, coded_ℕ};
    ghost use Rattle.text_map.specs.Texts.{Texts};

    ghost Value = { Texts V };

    ghost coded = { coded_list (coded× (coded_list coded_ℕ) V.code) };

    ghost use Rattle.text_map.specs.Places.{IsBounded, texts_in};

    ghost view = { λ m. texts_in m.tables };

    ghost invariant = { λ m. IsBounded m.tables };
}

impl<'a, V> TextMap<'a, V> {
    /// A table without a text. It takes no memory.
    pub fn new(alloc: Global) -> TextMap<'a, V>
        ensures { result ≡ [] }
    {
        TextMap {
            tables: Tables::new(alloc),
        }
    }

    /// What is kept for a text. It takes no memory.
    pub fn get(&self, text: &str) -> Option<&V>
        ensures { option_copied result ≡ get_in self.now text.now }
    {
        let key = Key::of(text);
        self.tables.get(key)
    }

    /// Keeps a value for a text, in place of an older one. After a refusal nothing has changed.
    pub fn insert(&mut self, text: &'a str, value: V) -> Result<(), NoMemory>
    where
        V: Drop,
        ensures ok { OnOk result (IsSet self.old self.new text.entry.now (Some value)) }
        ensures err { OnErr result ((q : List ℕ) → get_in self.new q ≡ get_in self.old q) }
    {
        self.replace(text, value)?;
        Ok(())
    }

    /// Keeps a value for a text, and gives the older one. After a refusal nothing has changed.
    pub fn replace(&mut self, text: &'a str, value: V) -> Result<Option<V>, NoMemory>
    where
        V: Drop,
        ensures older { IfOk result (λ o. o ≡ get_in self.old text.entry.now) }
        ensures ok { OnOk result (IsSet self.old self.new text.entry.now (Some value)) }
        ensures err { OnErr result ((q : List ℕ) → get_in self.new q ≡ get_in self.old q) }
    {
        let key = Key::of(text);
        self.tables.put(key, value)
    }

    /// Takes a text away, and gives what was kept for it. It takes no memory.
    pub fn remove(&mut self, text: &str) -> Option<V>
    where
        V: Drop,
        ensures value { result ≡ get_in self.old text.now }
        ensures texts { IsSet self.old self.new text.now None }
    {
        let key = Key::of(text);
        self.tables.take(key)
    }
}

impl<'a, T> TextMap<'a, Vec<T>> {
    /// Adds an item at the end of those that are kept for a text. After a refusal nothing has changed.
    pub fn push_at(&mut self, text: &'a str, item: T) -> Result<(), NoMemory>
    where
        T: Drop,
        ensures ok { OnOk result ((q : List ℕ) → items_in self.new q
            ≡ (if bytes_eq q text.entry.now then items_in self.old q ++ item ∷ [] else items_in self.old q)) }
        ensures err { OnErr result ((q : List ℕ) → items_in self.new q ≡ items_in self.old q) }
    {
        let key = Key::of(text);
        self.tables.push(key, item)
    }
}
