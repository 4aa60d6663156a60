//! Elements that are kept in an arena.
ghost use Rattle.id_table.specs.Tables.{AreOnOwnPages};

use ix_base::Spot;

/// Elements, in an arena. What stands above each of them is of its page.
#[derive(Clone, Copy)]
pub struct Slice<'a> {
    pub spots: &'a [&'a Spot<'a>],
    pub ghost on_pages: { AreOnOwnPages spots.now },
}
