//! What an index keeps.
ghost use Rattle.std.specs.Prelude.{◌≡◌, []};
ghost use Rattle.id_table.specs.Tables.{AreWhole};

use crate::choices::Choices;
use crate::tables::Tables;
use std::alloc::Global;
use text_map::TextMap;

/// The tables, and what was chosen for ids.
pub struct Kept<'a> {
    pub tables: Tables<'a>,
    pub choices: Choices<'a>,
}

impl Drop for Kept<'_> {
    fn drop(self) {
        let Kept {
            tables: _,
            choices: _,
        } = self;
    }
}

impl<'a> Kept<'a> {
    pub fn new(alloc: Global) -> Kept<'a>
        ensures spots { result.tables.spots.items ≡ [] }
        ensures whole { AreWhole result.tables.ids result.tables.tuples result.tables.lists result.tables.repeats
            result.tables.spots.items }
        ensures choices { result.choices ≡ [] }
    {
        Kept {
            tables: Tables::new(alloc),
            choices: TextMap::new(alloc),
        }
    }

    /// Gives back all that is kept.
    pub fn clear(&mut self, alloc: Global)
        ensures spots { self.new.tables.spots.items ≡ [] }
        ensures whole { AreWhole self.new.tables.ids self.new.tables.tuples self.new.tables.lists self.new.tables.repeats
            self.new.tables.spots.items }
        ensures choices { self.new.choices ≡ [] }
    {
        *self = Kept::new(alloc);
    }
}
