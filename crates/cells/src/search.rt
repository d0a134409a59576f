// Searches over the rows of a level.
ghost use Rattle.std.specs.Prelude.{length};
ghost use Rattle.model.specs.Buffers.{holding, state_of};
ghost use Rattle.model.specs.Effect.{lowest_empty};
ghost use Rattle.cells.specs.Layout.{Sized, Lent, InLevel, Row};
ghost use Rattle.cells.specs.Changed.{key_place, entity_place};

use crate::layout::Part;

impl Part {
    // The first row of a level with a key.
    pub fn find(self, values: &[u32], level: usize, key: u32) -> Option<usize>
        requires sized { Sized self.description (length values.now) }
        requires in_level { InLevel self.description self.relation level }
        ensures { Row self.description self.relation (key_place self.description values.now self.relation level key) result }
    {
        for row in 0..self.rows {
            if self.value_at(values, level, row, 1) == key {
                return Some(row);
            }
        }
        None
    }

    // The row of an entity at a level.
    pub fn entity(
        self,
        values: &[u32],
        classes: &[u8],
        level: usize,
        key: u32,
        class: u8,
    ) -> Option<usize>
        requires lent { Lent self.description (length values.now) (length classes.now) }
        requires in_level { InLevel self.description self.relation level }
        ensures { Row self.description self.relation (entity_place self.description values.now classes.now self.relation level key class) result }
    {
        let row = self.find(values, level, key)?;
        if self.class_at(classes, level, row, 1) == class {
            return Some(row);
        }
        None
    }

    // The lowest empty row of a level.
    pub fn lowest(self, values: &[u32], classes: &[u8], level: usize) -> Option<usize>
        requires lent { Lent self.description (length values.now) (length classes.now) }
        requires in_level { InLevel self.description self.relation level }
        ensures { Row self.description self.relation (lowest_empty self.description (state_of self.description (holding values.now classes.now) level).rows self.relation) result }
    {
        for row in 0..self.rows {
            if self.is_empty(values, classes, level, row) {
                return Some(row);
            }
        }
        None
    }
}
