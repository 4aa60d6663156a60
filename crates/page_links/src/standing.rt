//! Links between elements, resolved as pages come.
//!
//! A link is an id that an attribute of an element names. It is pending as long as no element has the id, resolved where one has
//! it, or several contexts or units of one normal form, and doubled where more have it that don't agree. Each id that was met
//! lies in a table, with how it stands and how many links name it; so an element that comes, and a link that comes, cost a look-up
//! and an entry each, whatever the ids are. Of an element that comes the kind is asked twice, and only the attributes that its kind has
//! are looked at.
ghost use Rattle.std.specs.Prelude.{◌≡◌, ◌++◌, ◌∷◌, ◌≤◌, [], ℕ, List, OnOk, IfSome, filter, option_map, true};
ghost use Rattle.ix_base.specs.Forms.{words_of};
ghost use Rattle.ix_base.specs.Kinds.{kind_of as spec_kind_of};
ghost use Rattle.ix_base.specs.LocatedElements.{Located, located};
ghost use Rattle.ix_base.specs.NcName.{is_ncname as spec_is_ncname};
ghost use Rattle.ix_base.specs.Once.{in_order};
ghost use Rattle.ix_base.specs.SortedLists.{text_cmp};
ghost use Rattle.ix_base.specs.Spots.{IsOnOnePage};
ghost use Rattle.id_table.specs.Tables.{AreOnOwnPages, all_located};
ghost use Rattle.page_links.specs.Model.{names_of};
ghost use Rattle.page_links.specs.LinkTables as tables;
ghost use Rattle.page_links.specs.LinkTables.{AreFirstOnPages, AreLinked, AreLinks, AreOfSome, AreSomeLinks, kept_in, named_of, named_in};
ghost use Rattle.link_ids.specs.LinkAttributes.{links_in, links_to};
ghost use Rattle.link_ids.specs.Links.{Link, links_of};

use crate::agreeing::{PageNames, Standing, with_holder, with_tuple};
use crate::met_ids::{Named, Names, known, name_once_more};
use ix_base::{Kind, NoMemory, Spot, kind_of};
use link_ids::{LinkAttribute, attributes_of, id_at, ids_in, list_at, single_at, tuple_id_at};
use scopes::is_ncname;
use std::alloc::Global;
use text_map::TextMap;

/// The links of the elements so far: the ids and the tuple ids that were met, and how many links are pending and doubled.
pub struct Links<'a> {
    ids: Names<'a>,
    tuple_ids: Names<'a>,
    pending: u64,
    doubled: u64,
}

impl Drop for Links<'_> {
    fn drop(self) {
        let Links {
            ids: _,
            tuple_ids: _,
            pending: _,
            doubled: _,
        } = self;
    }
}

impl<'a> Links<'a> {
    /// No links.
    pub fn new(alloc: Global) -> Links<'a>
        ensures { (names : ℕ → List ℕ) → AreLinked names [] [] [] result }
    {
        Links {
            ids: TextMap::new(alloc),
            tuple_ids: TextMap::new(alloc),
            pending: 0,
            doubled: 0,
        }
    }

    /// How many links are pending. It takes no memory.
    pub fn pending(&self) -> u64
        ensures { result ≡ self.now.pending }
    {
        self.pending
    }

    /// How many links are doubled. It takes no memory.
    pub fn doubled(&self) -> u64
        ensures { result ≡ self.now.doubled }
    {
        self.doubled
    }

    /// The links that wait for an id are resolved, where it has its first holder, and doubled at the first that doesn't agree.
    fn count_holder(&mut self, named: Named<'a>, after: Standing<'a>) -> Result<(), NoMemory>
        requires { tables.is_none (named_of named).kept ≡ true → named.links ≤ self.old.pending }
        ensures counts { OnOk result (tables.counts_of self.new
            ≡ tables.with_holder (named_of named.entry) (kept_in after.entry) (tables.counts_of self.old)) }
        ensures same { (self.new.ids ≡ self.old.ids) × (self.new.tuple_ids ≡ self.old.tuple_ids) }
    {
        match (named.standing, after) {
            (Standing::Pending, _) => self.pending -= named.links,
            (Standing::Resolved(_), Standing::Doubled) => {
                self.doubled = self.doubled.checked_add(named.links).ok_or(NoMemory)?;
            }
            _ => {}
        }
        Ok(())
    }

    /// A link comes to an id.
    fn count_link(&mut self, named: Named<'a>) -> Result<(), NoMemory>
        ensures counts { OnOk result (tables.counts_of self.new ≡ tables.with_link (named_of named.entry) (tables.counts_of self.old)) }
        ensures same { (self.new.ids ≡ self.old.ids) × (self.new.tuple_ids ≡ self.old.tuple_ids) }
    {
        match named.standing {
            Standing::Pending => self.pending = self.pending.checked_add(1).ok_or(NoMemory)?,
            Standing::Resolved(_) => {}
            Standing::Doubled => self.doubled = self.doubled.checked_add(1).ok_or(NoMemory)?,
        }
        Ok(())
    }

    /// The first by page and offset of the elements with an id, where one has it or all agree. It takes no memory.
    pub(crate) fn first(&self, id: &str) -> Option<&'a Spot<'a>>
        ensures element { option_map (λ s. located s.now) result ≡ tables.first_kept (named_in self.now.ids id.now).kept }
        ensures page { AreFirstOnPages self.now.ids → IfSome result (λ s. IsOnOnePage s.now) }
    {
        match known(&self.ids, id).standing {
            Standing::Resolved(agreeing) => Some(agreeing.first),
            Standing::Pending | Standing::Doubled => None,
        }
    }

    /// An element comes that may have an id.
    fn hold(
        &mut self,
        alloc: Global,
        names: &PageNames<'_, '_>,
        spot: &'a Spot<'a>,
    ) -> Result<(), NoMemory>
        requires some { AreSomeLinks self.old }
        requires page { IsOnOnePage spot.now }
        ensures { (es ts : List Located) (ls : List Link) → AreLinked (names_of names.now) es ts ls self.old
            → OnOk result (AreLinked (names_of names.now) (es ++ located spot.entry.now ∷ []) ts ls self.new) }
    {
        let Some(id) = id_at(spot) else {
            return Ok(());
        };
        let before = known(&self.ids, id);
        let links = before.links;
        let standing = with_holder(alloc, names, before.standing, spot)?;
        self.ids.insert(id, Named { standing, links })?;
        self.count_holder(before, standing)
    }

    /// An element comes that may have a tuple id.
    fn hold_tuple(&mut self, spot: &'a Spot<'a>) -> Result<(), NoMemory>
        requires { AreSomeLinks self.old }
        ensures { (names : ℕ → List ℕ) (es ts : List Located) (ls : List Link) → AreLinked names es ts ls self.old
            → OnOk result (AreLinked names es (ts ++ located spot.entry.now ∷ []) ls self.new) }
    {
        let Some(id) = tuple_id_at(spot) else {
            return Ok(());
        };
        let before = known(&self.tuple_ids, id);
        let links = before.links;
        let standing = with_tuple(before.standing, spot);
        self.tuple_ids.insert(id, Named { standing, links })?;
        self.count_holder(before, standing)
    }

    /// A link comes.
    fn link(&mut self, attribute: LinkAttribute, id: &'a str) -> Result<(), NoMemory>
        ensures { (names : ℕ → List ℕ) (es ts : List Located) (ls : List Link) (e : Located) → AreLinked names es ts ls self.old
            → OnOk result (AreLinked names es ts (ls ++ record { attribute = attribute; id = id.entry.now; element = e } ∷ []) self.new) }
    {
        let before = match attribute {
            LinkAttribute::TupleRef => name_once_more(&mut self.tuple_ids, id)?,
            _ => name_once_more(&mut self.ids, id)?,
        };
        self.count_link(before)
    }

    /// A link comes, where the text can be an id.
    fn link_if_id(&mut self, attribute: LinkAttribute, text: &'a str) -> Result<(), NoMemory>
        ensures { (names : ℕ → List ℕ) (es ts : List Located) (ls : List Link) (e : Located) → AreLinked names es ts ls self.old
            → OnOk result (AreLinked names es ts
            (ls ++ links_to attribute e (filter spec_is_ncname (text.entry.now ∷ []))) self.new) }
    {
        if is_ncname(text) {
            return self.link(attribute, text);
        }
        Ok(())
    }

    /// The links to the ids of a list come.
    fn link_each(
        &mut self,
        alloc: Global,
        attribute: LinkAttribute,
        list: &'a str,
    ) -> Result<(), NoMemory>
        ensures { (names : ℕ → List ℕ) (es ts : List Located) (ls : List Link) (e : Located) → AreLinked names es ts ls self.old
            → OnOk result (AreLinked names es ts
            (ls ++ links_to attribute e (in_order text_cmp (filter spec_is_ncname (words_of list.entry.now)))) self.new) }
    {
        let ids = ids_in(alloc, list)?;
        for id in ids.as_slice() {
            self.link(attribute, *id)?;
        }
        Ok(())
    }

    /// The links of an attribute of an element come.
    fn link_by(
        &mut self,
        alloc: Global,
        attribute: LinkAttribute,
        spot: &Spot<'a>,
    ) -> Result<(), NoMemory>
        ensures { (names : ℕ → List ℕ) (es ts : List Located) (ls : List Link) → AreLinked names es ts ls self.old
            → OnOk result (AreLinked names es ts (ls ++ links_in attribute (located spot.now)) self.new) }
    {
        if let Some(id) = single_at(attribute, spot.element) {
            return self.link_if_id(attribute, id);
        }
        match list_at(attribute, spot.element) {
            Some(list) => self.link_each(alloc, attribute, list),
            None => Ok(()),
        }
    }

    /// The links of an element of this kind come.
    fn link_all(&mut self, alloc: Global, kind: Kind, spot: &Spot<'a>) -> Result<(), NoMemory>
        requires { kind ≡ spec_kind_of (located spot.now).placed }
        ensures { (names : ℕ → List ℕ) (es ts : List Located) (ls : List Link) → AreLinked names es ts ls self.old
            → OnOk result (AreLinked names es ts (ls ++ links_of (located spot.now)) self.new) }
    {
        for attribute in attributes_of(kind) {
            self.link_by(alloc, *attribute, spot)?;
        }
        Ok(())
    }

    /// An element comes, with its links.
    fn add(
        &mut self,
        alloc: Global,
        names: &PageNames<'_, '_>,
        spot: &'a Spot<'a>,
    ) -> Result<(), NoMemory>
        requires some { AreOfSome (names_of names.now) self.old }
        requires page { IsOnOnePage spot.now }
        ensures { (es : List Located) → AreLinks (names_of names.now) es self.old
            → OnOk result (AreLinks (names_of names.now) (es ++ located spot.entry.now ∷ []) self.new) }
    {
        let kind = kind_of(spot);
        self.hold(alloc, names, spot)?;
        self.hold_tuple(spot)?;
        self.link_all(alloc, kind, spot)
    }

    /// Elements come, with their links.
    pub fn add_all(
        &mut self,
        alloc: Global,
        names: &PageNames<'_, '_>,
        spots: &[&'a Spot<'a>],
    ) -> Result<(), NoMemory>
        requires some { AreOfSome (names_of names.now) self.old }
        requires pages { AreOnOwnPages spots.now }
        ensures { (es : List Located) → AreLinks (names_of names.now) es self.old
            → OnOk result (AreLinks (names_of names.now) (es ++ all_located spots.now) self.new) }
    {
        for spot in spots {
            self.add(alloc, names, *spot)?;
        }
        Ok(())
    }
}
