//! One table from texts to values.
ghost use Rattle.std.specs.Prelude.{◌≡◌, ◌+◌, ◌≤◌, ℕ, List, IfOk, OnOk, OnErr, Some, None, if◌then◌else◌, bytes_eq, is_some};
ghost use Rattle.text_map.specs.Tables.{added, at, items_at, size};

use crate::key::{Kept, Key};
use indexmap::IndexMap;
use ix_base::NoMemory;
use std::alloc::Global;

/// A table that finds a text by its hash. Of texts with one hash it goes through each.
pub(crate) type Table<'a, V> = IndexMap<Kept<'a>, V>;

/// Sets the value of a text, and gives the older one.
#[tactic(auto, using(crate::proofs::Keyed::keyed_changed))]
pub(crate) fn put<'a, V: Drop>(
    table: &mut Table<'a, V>,
    key: Key<'a>,
    value: V,
) -> Result<Option<V>, NoMemory>
    ensures older { IfOk result (λ o. o ≡ at table.old key.entry.text.now) }
    ensures ok { OnOk result ((q : List ℕ) → at table.new q
        ≡ (if bytes_eq q key.entry.text.now then Some value else at table.old q)) }
    ensures err { OnErr result ((q : List ℕ) → at table.new q ≡ at table.old q) }
    ensures size { size table.new ≤ (if is_some (at table.old key.entry.text.now) then size table.old else size table.old + 1) }
{
    let older = table.insert(Kept { text: key.text }, value)?;
    Ok(older)
}

/// Adds an item at the end of those of a text.
pub(crate) fn push<'a, T: Drop>(
    alloc: Global,
    table: &mut Table<'a, Vec<T>>,
    key: Key<'a>,
    item: T,
) -> Result<(), NoMemory>
    ensures ok { OnOk result ((q : List ℕ) → items_at table.new q
        ≡ (if bytes_eq q key.entry.text.now then added item (items_at table.old q) else items_at table.old q)) }
    ensures err { OnErr result ((q : List ℕ) → items_at table.new q ≡ items_at table.old q) }
    ensures size { size table.new ≤ (if is_some (at table.old key.entry.text.now) then size table.old else size table.old + 1) }
{
    if let Some(items) = table.get_mut(key) {
        items.push(item)?;
        return Ok(());
    }
    let mut items = Vec::new(alloc);
    items.push(item)?;
    put(table, key, items)?;
    Ok(())
}

/// Takes a text away, and gives its value.
pub(crate) fn take<V>(table: &mut Table<'_, V>, key: Key<'_>) -> Option<V>
    ensures value { result ≡ at table.old key.entry.text.now }
    ensures texts { (q : List ℕ) → at table.new q ≡ (if bytes_eq q key.entry.text.now then None else at table.old q) }
    ensures size { size table.new ≤ size table.old }
{
    table.swap_remove(key)
}
