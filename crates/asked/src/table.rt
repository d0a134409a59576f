// What a statement is about.
ghost use Rattle.std.specs.Prelude.{◌≡◌};
ghost use Rattle.asked.specs.Known.{Ordered, Related};

use crate::columns::Columns;
use crate::levels::Levels;
use cells::layout::Part;

// A relation's part of the buffers, and which level dominates which.
#[derive(Clone, Copy)]
pub struct Table {
    pub part: Part,
    pub order: [[bool; 16]; 16],
    pub ghost ordered: { Ordered part.description order },
    pub ghost related: { Related part.description part.relation part.columns },
}

impl Table {
    // The levels of its description.
    pub fn levels(self) -> Levels
        ensures described { result.description ≡ self.part.description }
        ensures in_order { result.order ≡ self.order }
    {
        let description = self.part.description;
        let order = self.order;
        Levels { description, order }
    }

    // Its columns.
    pub fn columns(self) -> Columns
        ensures described { result.levels.description ≡ self.part.description }
        ensures in_order { result.levels.order ≡ self.order }
        ensures of_relation { result.relation ≡ self.part.relation }
        ensures counted { result.count ≡ self.part.columns }
    {
        let levels = self.levels();
        Columns {
            levels,
            relation: self.part.relation,
            count: self.part.columns,
        }
    }
}
