//! Texts in order, and things in the order of their keys.
ghost use Rattle.std.specs.Prelude.{◌≡◌, ◌++◌, ℕ, List as Items, map, OnOk, IfOk};
ghost use Rattle.std.specs.Ordering.{on};
ghost use Rattle.ix_base.specs.Once.{in_order};
ghost use Rattle.ix_base.specs.SortedLists.{sorted, text_cmp};
ghost use Rattle.instance_lines.specs.Keys.{by_key, keyed_by as things_keyed_by, lasts, ties_last, with_last};
ghost use Rattle.instance_lines.specs.Tables.{values_of};

use ix_base::{List, NoMemory, Text, each_once};
use std::alloc::Global;
use std::cmp::Ordering;
use std::mem;

/// Something that is put in order by a key.
#[derive(Drop)]
pub struct Keyed<T> {
    pub key: Text,
    pub item: T,
}

/// A way to put things in order: by a text that is made of each.
pub trait KeyOf<T> {
    ghost key: { T → Items ℕ };

    /// The text by which a thing is put in order.
    fn key_of(alloc: Global, item: &T) -> Result<Text, NoMemory>
        ensures { IfOk result (λ t. t ≡ key item.now) };
}

/// How two texts compare by their bytes.
fn compare_texts(a: &Text, b: &Text) -> Ordering
    ensures { result ≡ text_cmp a.now b.now }
{
    a.as_str().cmp(b.as_str())
}

/// How two things compare by their keys.
fn compare_keys<T>(a: &Keyed<T>, b: &Keyed<T>) -> Ordering
    ensures { result ≡ by_key a.now b.now }
{
    a.key.as_str().cmp(b.key.as_str())
}

/// Puts texts in order by their bytes.
pub fn sort_texts(texts: &mut Vec<Text>)
    ensures { texts.new.items ≡ sorted text_cmp texts.old.items }
{
    texts.sort_unstable_by(|a, b| compare_texts(a, b));
}

/// Puts things in order by their keys. Those with one key keep the order that they have.
fn sort_keyed<T>(keyed: &mut Vec<Keyed<T>>) -> Result<(), NoMemory>
    ensures { OnOk result (keyed.new.items ≡ sorted by_key keyed.old.items) }
{
    match keyed.sort_by(|a, b| compare_keys(a, b)) {
        Ok(()) => Ok(()),
        Err(_) => Err(NoMemory),
    }
}

/// The things without their keys.
fn items_of<T: Drop>(alloc: Global, keyed: Vec<Keyed<T>>) -> Result<Vec<T>, NoMemory>
    ensures { IfOk result (λ v. v.items ≡ map (λ k. k.item) keyed.items) }
{
    let mut items = Vec::with_capacity(alloc, keyed.len())?;
    for one in keyed {
        let Keyed { key: _, item } = one;
        items.push(item)?;
    }
    Ok(items)
}

/// Adds keys, and the things without them, behind others.
fn push_parts<T: Drop>(
    keyed: Vec<Keyed<T>>,
    keys: &mut Vec<Text>,
    items: &mut Vec<T>,
) -> Result<(), NoMemory>
    ensures keys { OnOk result (keys.new.items ≡ keys.old.items ++ map (λ k. k.key) keyed.items) }
    ensures items { OnOk result (items.new.items ≡ items.old.items ++ map (λ k. k.item) keyed.items) }
{
    for one in keyed {
        let Keyed { key, item } = one;
        keys.push(key)?;
        items.push(item)?;
    }
    Ok(())
}

/// The keys, and the things without them.
fn parts_of<T: Drop>(alloc: Global, keyed: Vec<Keyed<T>>) -> Result<(Vec<Text>, Vec<T>), NoMemory>
    ensures keys { IfOk result (λ p. p.0.items ≡ map (λ k. k.key) keyed.items) }
    ensures items { IfOk result (λ p. p.1.items ≡ map (λ k. k.item) keyed.items) }
{
    let mut keys = Vec::with_capacity(alloc, keyed.len())?;
    let mut items = Vec::with_capacity(alloc, keyed.len())?;
    push_parts(keyed, &mut keys, &mut items)?;
    Ok((keys, items))
}

/// The keys in order, and the things in the order of these. Those with one key keep the order that they have.
pub fn with_keys<T: Drop>(
    alloc: Global,
    mut keyed: Vec<Keyed<T>>,
) -> Result<(Vec<Text>, Vec<T>), NoMemory>
    ensures keys { IfOk result (λ p. p.0.items ≡ map (λ k. k.key) (sorted by_key keyed.items)) }
    ensures items { IfOk result (λ p. p.1.items ≡ map (λ k. k.item) (sorted by_key keyed.items)) }
{
    sort_keyed(&mut keyed)?;
    parts_of(alloc, keyed)
}

/// The things in the order of their keys. Those with one key keep the order that they have.
pub fn by_keys<T: Drop>(alloc: Global, mut keyed: Vec<Keyed<T>>) -> Result<Vec<T>, NoMemory>
    ensures { IfOk result (λ v. v.items ≡ map (λ k. k.item) (sorted by_key keyed.items)) }
{
    sort_keyed(&mut keyed)?;
    items_of(alloc, keyed)
}

/// Whether the last of some things has the key of this one.
fn ends_with_key<T>(kept: &[Keyed<T>], one: &Keyed<T>) -> bool
    ensures { result ≡ ties_last by_key kept.now one.now }
{
    match kept.last() {
        Some(last) => compare_keys(last, one).is_eq(),
        None => false,
    }
}

/// Adds at the end, in the place of the last one where both have one key.
fn put_last<T: Drop>(kept: &mut Vec<Keyed<T>>, one: Keyed<T>) -> Result<(), NoMemory>
    ensures { OnOk result (kept.new.items ≡ with_last by_key kept.old.items one) }
{
    if ends_with_key(kept.as_slice(), &one) {
        kept.pop();
    }
    kept.push(one)?;
    Ok(())
}

/// Of those side by side with one key the last.
fn last_of_each<T: Drop>(alloc: Global, keyed: Vec<Keyed<T>>) -> Result<Vec<Keyed<T>>, NoMemory>
    ensures { IfOk result (λ v. v.items ≡ lasts by_key keyed.items) }
{
    let mut kept = Vec::new(alloc);
    for one in keyed {
        put_last(&mut kept, one)?;
    }
    Ok(kept)
}

/// The things in the order of their keys. Of those with one key the last stays.
pub fn once_by_keys<T: Drop>(alloc: Global, mut keyed: Vec<Keyed<T>>) -> Result<Vec<T>, NoMemory>
    ensures { IfOk result (λ v. v.items ≡ map (λ k. k.item) (in_order by_key keyed.items)) }
{
    sort_keyed(&mut keyed)?;
    let kept = last_of_each(alloc, keyed)?;
    items_of(alloc, kept)
}

/// Things with their keys.
fn keyed_by<K: KeyOf<T>, T: Drop>(alloc: Global, items: List<T>) -> Result<Vec<Keyed<T>>, NoMemory>
    ensures { IfOk result (λ v. v.items ≡ things_keyed_by K.key items) }
{
    let mut keyed = Vec::new(alloc);
    for item in items.into_vec() {
        let key = K::key_of(alloc, &item)?;
        keyed.push(Keyed { key, item })?;
    }
    Ok(keyed)
}

/// Puts things in the order of their keys. Those with one key keep the order that they have.
pub fn put_by_keys<K: KeyOf<T>, T: Drop>(alloc: Global, items: &mut List<T>) -> Result<(), NoMemory>
    ensures { OnOk result (items.new ≡ sorted (on K.key text_cmp) items.old) }
{
    let taken = mem::replace(items, List::new(alloc));
    let keyed = keyed_by::<K, T>(alloc, taken)?;
    let ordered = by_keys(alloc, keyed)?;
    *items = List::of(ordered);
    Ok(())
}

/// Puts things in the order of their keys. Of those with one key the last stays.
pub fn put_once_by_keys<K: KeyOf<T>, T: Drop>(
    alloc: Global,
    items: &mut List<T>,
) -> Result<(), NoMemory>
    ensures { OnOk result (items.new ≡ in_order (on K.key text_cmp) items.old) }
{
    let taken = mem::replace(items, List::new(alloc));
    let keyed = keyed_by::<K, T>(alloc, taken)?;
    let ordered = once_by_keys(alloc, keyed)?;
    *items = List::of(ordered);
    Ok(())
}

/// The texts, as they lie.
pub fn views_of(alloc: Global, texts: &[Text]) -> Result<Vec<&str>, NoMemory>
    ensures { IfOk result (λ v. values_of v.items ≡ texts.now) }
{
    let mut views = Vec::new(alloc);
    for text in texts {
        views.push(text.as_str())?;
    }
    Ok(views)
}

/// Copies of texts.
pub fn copies_of(alloc: Global, texts: &[&str]) -> Result<Vec<Text>, NoMemory>
    ensures { IfOk result (λ v. v.items ≡ values_of texts.now) }
{
    let mut copies = Vec::new(alloc);
    for text in texts {
        copies.push(Text::of(alloc, text)?)?;
    }
    Ok(copies)
}

/// These texts in order, each once.
pub fn once(alloc: Global, texts: &[Text]) -> Result<Vec<Text>, NoMemory>
    ensures { IfOk result (λ v. v.items ≡ in_order text_cmp texts.now) }
{
    let mut views = views_of(alloc, texts)?;
    each_once(&mut views);
    copies_of(alloc, views.as_slice())
}

/// The keys of things, in order, each once.
pub fn keys_once<K: KeyOf<T>, T>(alloc: Global, items: &[T]) -> Result<Vec<Text>, NoMemory>
    ensures { IfOk result (λ v. v.items ≡ in_order text_cmp (map K.key items.now)) }
{
    let mut keys = Vec::new(alloc);
    for item in items {
        let key = K::key_of(alloc, item)?;
        keys.push(key)?;
    }
    once(alloc, keys.as_slice())
}
