//! Tables of texts by class.
ghost use Rattle.std.specs.Prelude.{◌≡◌, ◌||◌, ◌<◌, [], ℕ, List, OnOk, OnErr, IfOk, Some, None, true, if◌then◌else◌, bytes_eq, is_some, length, All};
ghost use Rattle.std.specs.Option.{option_copied};
ghost use Rattle.text_map.specs.Tables.{AreSmall, added, has_room as spec_has_room, items_kept, kept_at};

use crate::key::Key;
use crate::table::{Table, push, put, take};
use indexmap::IndexMap;
use ix_base::NoMemory;
use std::alloc::Global;

/// So many texts the table of a class has at most.
pub(crate) const FULL: usize = 1024;

/// So many classes there are, a power of two.
pub(crate) const CLASSES: usize = 4096;

/// What is kept for a text in the table of its class.
pub(crate) fn get_classed<'m, 'a, V>(tables: &'m [Table<'a, V>], key: Key<'_>) -> Option<&'m V>
    ensures { option_copied result ≡ kept_at tables.now key.entry.text.now }
{
    if tables.is_empty() {
        return None;
    }
    tables[key.class(tables.len())].get(key)
}

/// Whether the table of its class has room for a text. Where there are no tables yet, there is room.
pub(crate) fn has_room<V>(tables: &[Table<'_, V>], key: Key<'_>) -> bool
    ensures { result ≡ spec_has_room tables.now key.entry.text.now }
{
    tables.is_empty() || tables[key.class(tables.len())].len() < FULL
}

/// A table for each class, without a text.
fn blank_tables<'a, V: Drop>(alloc: Global) -> Result<Vec<Table<'a, V>>, NoMemory>
    ensures count { IfOk result (λ ts. length ts.items ≡ CLASSES) }
    ensures blank { IfOk result (λ ts. All (λ t. t.entries ≡ []) ts.items) }
{
    let mut tables = Vec::with_capacity(alloc, CLASSES)?;
    'classes: while tables.len() < CLASSES {
        tables.push(IndexMap::new(alloc))?;
    }
    Ok(tables)
}

/// Makes the tables where there are none yet.
fn make_tables<'a, V: Drop>(alloc: Global, tables: &mut Vec<Table<'a, V>>) -> Result<(), NoMemory>
    ensures made { OnOk result (0 < length tables.new.items) }
    ensures texts { (q : List ℕ) → kept_at tables.new.items q ≡ kept_at tables.old.items q }
    ensures room { (q : List ℕ) → spec_has_room tables.new.items q ≡ spec_has_room tables.old.items q }
    ensures small { AreSmall tables.old.items → AreSmall tables.new.items }
{
    if !tables.is_empty() {
        return Ok(());
    }
    *tables = blank_tables(alloc)?;
    Ok(())
}

/// Sets the value of a text in the table of its class, and gives the older one.
fn put_in<'a, V: Drop>(
    tables: &mut [Table<'a, V>],
    key: Key<'a>,
    value: V,
) -> Result<Option<V>, NoMemory>
    requires { 0 < length tables.old }
    ensures older { IfOk result (λ o. o ≡ kept_at tables.old key.entry.text.now) }
    ensures ok { OnOk result ((q : List ℕ) → kept_at tables.new q
        ≡ (if bytes_eq q key.entry.text.now then Some value else kept_at tables.old q)) }
    ensures err { OnErr result ((q : List ℕ) → kept_at tables.new q ≡ kept_at tables.old q) }
    ensures small { (is_some (kept_at tables.old key.entry.text.now) || spec_has_room tables.old key.entry.text.now) ≡ true
        → AreSmall tables.old → AreSmall tables.new }
{
    let class = key.class(tables.len());
    put(&mut tables[class], key, value)
}

/// Sets the value of a text in the table of its class, and gives the older one. Makes the tables where there are none yet.
pub(crate) fn put_classed<'a, V: Drop>(
    alloc: Global,
    tables: &mut Vec<Table<'a, V>>,
    key: Key<'a>,
    value: V,
) -> Result<Option<V>, NoMemory>
    ensures older { IfOk result (λ o. o ≡ kept_at tables.old.items key.entry.text.now) }
    ensures ok { OnOk result ((q : List ℕ) → kept_at tables.new.items q
        ≡ (if bytes_eq q key.entry.text.now then Some value else kept_at tables.old.items q)) }
    ensures err { OnErr result ((q : List ℕ) → kept_at tables.new.items q ≡ kept_at tables.old.items q) }
    ensures small { (is_some (kept_at tables.old.items key.entry.text.now)
        || spec_has_room tables.old.items key.entry.text.now) ≡ true → AreSmall tables.old.items → AreSmall tables.new.items }
{
    make_tables(alloc, tables)?;
    put_in(tables, key, value)
}

/// Adds an item at the end of those of a text in the table of its class.
fn push_in<'a, T: Drop>(
    alloc: Global,
    tables: &mut [Table<'a, Vec<T>>],
    key: Key<'a>,
    item: T,
) -> Result<(), NoMemory>
    requires { 0 < length tables.old }
    ensures ok { OnOk result ((q : List ℕ) → items_kept tables.new q
        ≡ (if bytes_eq q key.entry.text.now then added item (items_kept tables.old q) else items_kept tables.old q)) }
    ensures err { OnErr result ((q : List ℕ) → items_kept tables.new q ≡ items_kept tables.old q) }
    ensures small { (is_some (kept_at tables.old key.entry.text.now) || spec_has_room tables.old key.entry.text.now) ≡ true
        → AreSmall tables.old → AreSmall tables.new }
{
    let class = key.class(tables.len());
    push(alloc, &mut tables[class], key, item)
}

/// Adds an item at the end of those of a text in the table of its class. Makes the tables where there are none yet.
pub(crate) fn push_classed<'a, T: Drop>(
    alloc: Global,
    tables: &mut Vec<Table<'a, Vec<T>>>,
    key: Key<'a>,
    item: T,
) -> Result<(), NoMemory>
    ensures ok { OnOk result ((q : List ℕ) → items_kept tables.new.items q
        ≡ (if bytes_eq q key.entry.text.now then added item (items_kept tables.old.items q) else items_kept tables.old.items q)) }
    ensures err { OnErr result ((q : List ℕ) → items_kept tables.new.items q ≡ items_kept tables.old.items q) }
    ensures small { (is_some (kept_at tables.old.items key.entry.text.now)
        || spec_has_room tables.old.items key.entry.text.now) ≡ true → AreSmall tables.old.items → AreSmall tables.new.items }
{
    make_tables(alloc, tables)?;
    push_in(alloc, tables, key, item)
}

/// Takes a text away from the table of its class, and gives its value.
fn take_in<V>(tables: &mut [Table<'_, V>], key: Key<'_>) -> Option<V>
    requires { 0 < length tables.old }
    ensures value { result ≡ kept_at tables.old key.entry.text.now }
    ensures texts { (q : List ℕ) → kept_at tables.new q ≡ (if bytes_eq q key.entry.text.now then None else kept_at tables.old q) }
    ensures small { AreSmall tables.old → AreSmall tables.new }
{
    let class = key.class(tables.len());
    take(&mut tables[class], key)
}

/// Takes a text away from the table of its class, where there is one, and gives its value.
pub(crate) fn take_classed<V>(tables: &mut Vec<Table<'_, V>>, key: Key<'_>) -> Option<V>
    ensures value { result ≡ kept_at tables.old.items key.entry.text.now }
    ensures texts { (q : List ℕ) → kept_at tables.new.items q
        ≡ (if bytes_eq q key.entry.text.now then None else kept_at tables.old.items q) }
    ensures small { AreSmall tables.old.items → AreSmall tables.new.items }
{
    if tables.is_empty() {
        return None;
    }
    take_in(tables, key)
}
