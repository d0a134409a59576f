// What UPLEVEL lists for an entity.
ghost use Rattle.uplevel.specs.Listed.{Listing};

use crate::meant::Entity;
use asked::table::Table;

// A list of columns and FROM levels, for an entity that a table is to have at the subject's level.
#[derive(Clone, Copy)]
pub struct Raising<'a> {
    pub list: &'a [u32],
    pub table: Table,
    pub subject: usize,
    pub entity: Entity,
    pub ghost listing: { Listing table.part.description table.part.relation subject list.now },
}
