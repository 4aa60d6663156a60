//! Where texts stand: the first ones in one table, further ones in the tables of their classes, and those for which their class has no
//! room in the order of texts.
ghost use Rattle.std.specs.Prelude.{◌≡◌, [], ℕ, List, IfOk, OnOk, OnErr, Some, None, true, if◌then◌else◌, bytes_eq};
ghost use Rattle.std.specs.Option.{option_copied};
ghost use Rattle.text_map.specs.Places.{IsBounded, found, free_place as spec_free_place, items_at_rest, items_found, place_of as spec_place_of, rest_at, texts_in};
ghost use Rattle.text_map.specs.Tables.{added, at};
ghost use Rattle.text_map.specs.declared.tables.Place.TheVariants.{Class, First};

use crate::class::{get_classed, has_room, push_classed, put_classed, take_classed};
use crate::key::Key;
use crate::table::{Table, push, put, take};
use indexmap::IndexMap;
use ix_base::NoMemory;
use std::alloc::Global;
use std::collections::BTreeMap;

/// So many texts stand in the first table at most.
pub(crate) const FEW: usize = 128;

/// The tables in which texts stand.
pub(crate) struct Tables<'a, V> {
    pub alloc: Global,
    pub first: Table<'a, V>,
    pub classes: Vec<Table<'a, V>>,
    pub rest: BTreeMap<&'a str, V>,
}

impl<'a, V: Drop> Drop for Tables<'a, V> {
    fn drop(self) {
        let Tables {
            alloc: _,
            first: _,
            classes: _,
            rest: _,
        } = self;
    }
}

/// Where a text stands, or where one may go.
pub(crate) enum Place {
    First,
    Class,
    Rest,
}

/// Sets the value of a text among those in order, and gives the older one.
#[tactic(auto, using(std::proofs::lemmas::Map::Text::text_keys))]
fn put_in_order<'a, V: Drop>(
    rest: &mut BTreeMap<&'a str, V>,
    text: &'a str,
    value: V,
) -> Result<Option<V>, NoMemory>
    ensures older { IfOk result (λ o. o ≡ rest_at rest.old text.entry.now) }
    ensures ok { OnOk result ((q : List ℕ) → rest_at rest.new q ≡ (if bytes_eq q text.entry.now then Some value else rest_at rest.old q)) }
    ensures err { OnErr result ((q : List ℕ) → rest_at rest.new q ≡ rest_at rest.old q) }
{
    let older = rest.insert(text, value)?;
    Ok(older)
}

/// Adds an item at the end of those of a text among those in order.
#[tactic(auto, using(std::proofs::lemmas::Map::Text::text_keys))]
fn push_in_order<'a, T: Drop>(
    alloc: Global,
    rest: &mut BTreeMap<&'a str, Vec<T>>,
    text: &'a str,
    item: T,
) -> Result<(), NoMemory>
    ensures ok { OnOk result ((q : List ℕ) → items_at_rest rest.new q
        ≡ (if bytes_eq q text.entry.now then added item (items_at_rest rest.old q) else items_at_rest rest.old q)) }
    ensures err { OnErr result ((q : List ℕ) → items_at_rest rest.new q ≡ items_at_rest rest.old q) }
{
    if let Some(items) = rest.get_mut(text) {
        items.push(item)?;
        return Ok(());
    }
    let mut items = Vec::new(alloc);
    items.push(item)?;
    put_in_order(rest, text, items)?;
    Ok(())
}

/// Takes a text away from those in order, and gives its value.
#[tactic(auto, using(std::proofs::lemmas::Map::Text::text_keys))]
fn take_in_order<V>(rest: &mut BTreeMap<&str, V>, text: &str) -> Option<V>
    ensures value { result ≡ rest_at rest.old text.now }
    ensures texts { (q : List ℕ) → rest_at rest.new q ≡ (if bytes_eq q text.now then None else rest_at rest.old q) }
{
    rest.remove(text)
}

impl<'a, V> Tables<'a, V> {
    /// Tables without a text. They take no memory.
    pub fn new(alloc: Global) -> Tables<'a, V>
        ensures none { texts_in result ≡ [] }
        ensures bounded { IsBounded result }
    {
        Tables {
            alloc,
            first: IndexMap::new(alloc),
            classes: Vec::new(alloc),
            rest: BTreeMap::new(alloc),
        }
    }

    /// What is kept for a text.
    pub fn get(&self, key: Key<'_>) -> Option<&V>
        ensures { option_copied result ≡ found self.now key.entry.text.now }
    {
        if let Some(value) = get_classed(self.classes.as_slice(), key) {
            return Some(value);
        }
        if let Some(value) = self.first.get(key) {
            return Some(value);
        }
        self.rest.get(key.text)
    }

    /// Where there is room for a text that stands nowhere.
    fn free_place(&self, key: Key<'_>) -> Place
        ensures { result ≡ spec_free_place self.now key.entry.text.now }
    {
        if self.first.len() < FEW {
            Place::First
        } else if has_room(self.classes.as_slice(), key) {
            Place::Class
        } else {
            Place::Rest
        }
    }

    /// Whether any text stands among the first ones, or may go there and nowhere else. So it is with few texts.
    fn is_of_first(&self) -> bool
        ensures { result ≡ true → (q : List ℕ) → spec_place_of self.now q ≡ First }
    {
        self.classes.is_empty() && self.rest.is_empty() && self.first.len() < FEW
    }

    /// Whether a text that isn't among the first ones stands in its class, or may go there and nowhere else. So it is with most.
    fn is_of_class(&self, key: Key<'_>) -> bool
        ensures { result ≡ true → at self.now.first key.entry.text.now ≡ None
            → spec_place_of self.now key.entry.text.now ≡ Class }
    {
        self.first.len() >= FEW && self.rest.is_empty() && has_room(self.classes.as_slice(), key)
    }

    /// Where a text stands, or else where there is room for it.
    fn place_of(&self, key: Key<'_>) -> Place
        ensures { result ≡ spec_place_of self.now key.entry.text.now }
    {
        if self.is_of_first() {
            return Place::First;
        }
        if self.is_of_class(key) && !self.first.contains_key(key) {
            return Place::Class;
        }
        if get_classed(self.classes.as_slice(), key).is_some() {
            return Place::Class;
        }
        if self.first.contains_key(key) {
            return Place::First;
        }
        if self.rest.contains_key(key.text) {
            return Place::Rest;
        }
        self.free_place(key)
    }

    /// Sets the value of a text, and gives the older one.
    pub fn put(&mut self, key: Key<'a>, value: V) -> Result<Option<V>, NoMemory>
    where
        V: Drop,
        ensures older { IfOk result (λ o. o ≡ found self.old key.entry.text.now) }
        ensures ok { OnOk result ((q : List ℕ) → found self.new q
            ≡ (if bytes_eq q key.entry.text.now then Some value else found self.old q)) }
        ensures err { OnErr result ((q : List ℕ) → found self.new q ≡ found self.old q) }
        ensures bounded { IsBounded self.old → IsBounded self.new }
    {
        match self.place_of(key) {
            Place::First => put(&mut self.first, key, value),
            Place::Class => put_classed(self.alloc, &mut self.classes, key, value),
            Place::Rest => put_in_order(&mut self.rest, key.text, value),
        }
    }

    /// Takes a text away, wherever it stands, and gives its value.
    pub fn take(&mut self, key: Key<'_>) -> Option<V>
    where
        V: Drop,
        ensures value { result ≡ found self.old key.entry.text.now }
        ensures texts { (q : List ℕ) → found self.new q ≡ (if bytes_eq q key.entry.text.now then None else found self.old q) }
        ensures bounded { IsBounded self.old → IsBounded self.new }
    {
        let classed = take_classed(&mut self.classes, key);
        let first = take(&mut self.first, key);
        let rest = take_in_order(&mut self.rest, key.text);
        classed.or(first.or(rest))
    }
}

impl<'a, T> Tables<'a, Vec<T>> {
    /// Adds an item at the end of those of a text.
    pub fn push(&mut self, key: Key<'a>, item: T) -> Result<(), NoMemory>
    where
        T: Drop,
        ensures ok { OnOk result ((q : List ℕ) → items_found self.new q
            ≡ (if bytes_eq q key.entry.text.now then added item (items_found self.old q) else items_found self.old q)) }
        ensures err { OnErr result ((q : List ℕ) → items_found self.new q ≡ items_found self.old q) }
        ensures bounded { IsBounded self.old → IsBounded self.new }
    {
        match self.place_of(key) {
            Place::First => push(self.alloc, &mut self.first, key, item),
            Place::Class => push_classed(self.alloc, &mut self.classes, key, item),
            Place::Rest => push_in_order(self.alloc, &mut self.rest, key.text, item),
        }
    }
}
