// The tests after the entity is known.
ghost use Rattle.std.specs.Prelude.{◌≡◌, not, ◌&&◌, ltb, length, is_some};
ghost use Rattle.model.specs.Description.{row_count};
ghost use Rattle.model.specs.Buffers.{holding, state_of};
ghost use Rattle.model.specs.Tables.{cell, rows_of};
ghost use Rattle.model.specs.Uplevel.{borrowed_names};
ghost use Rattle.cells.specs.Layout.{Sized, InLevel, Row};
ghost use Rattle.cells.specs.Changed.{key_place, entity_place};
ghost use Rattle.change.specs.Facts.{Standing, sight};
ghost use Rattle.change.specs.Tests.{ended};
ghost use Rattle.uplevel.specs.Raising.{later_tests, spot_of};

use crate::lenders::lent;
use crate::raising::Raising;
use asked::pairs::{Rule, find};
use cells::layout::Part;
use change::named::names;
use model::Fault;

// Whether another entity has the key, where the entity's row is `here`.
fn taken(values: &[u32], part: Part, subject: usize, key: u32, here: Option<usize>) -> bool
    requires sized { Sized part.description (length values.now) }
    requires in_level { InLevel part.description part.relation subject }
    ensures { result ≡ (not (is_some here) && ltb (key_place part.description values.now part.relation subject key) (row_count part.description part.relation)) }
{
    here.is_none() && part.find(values, subject, key).is_some()
}

impl Raising<'_> {
    // Whether a reference that is borrowed is null or has its row at the subject's level.
    fn borrowed(&self, values: &[u32], classes: &[u8]) -> bool
        requires standing { Standing self.now.table.part.description self.now.table.part.relation self.now.subject values.now classes.now }
        ensures { result ≡ borrowed_names self.now.table.part.description self.now.subject self.now.table.part.relation (cell self.now.entity.key self.now.entity.class) self.now.list.now (rows_of (sight self.now.table.part.description self.now.subject values.now classes.now)) }
    {
        let part = self.table.part;
        let description = part.description;
        let relation = part.relation;
        let column = description.foreign[relation] as usize;
        if column == 0 {
            return true;
        }
        let Some(at) = find(self.list, column) else {
            return true;
        };
        let from = self.list[2 * at + 1] as usize;
        let value = lent(values, classes, part, from, self.entity, column);
        names(values, description, relation, self.subject, value)
    }

    // The tests after the entity is known, in their order, where its row at the subject's level is `here`, and the one that it gets is `row`.
    pub(crate) fn check(
        &self,
        values: &[u32],
        classes: &[u8],
        here: Option<usize>,
        row: Option<usize>,
    ) -> Result<(), Fault>
        requires standing { Standing self.now.table.part.description self.now.table.part.relation self.now.subject values.now classes.now }
        requires found { Row self.now.table.part.description self.now.table.part.relation (entity_place self.now.table.part.description values.now classes.now self.now.table.part.relation self.now.subject self.now.entity.key self.now.entity.class) here }
        requires spot { row ≡ spot_of self.now.table.part.description self.now.table.part.relation here (state_of self.now.table.part.description (holding values.now classes.now) self.now.subject).rows }
        ensures { result ≡ ended (later_tests self.now.table.part.description self.now.subject self.now.table.part.relation (cell self.now.entity.key self.now.entity.class) self.now.list.now (sight self.now.table.part.description self.now.subject values.now classes.now)) }
    {
        let part = self.table.part;
        if taken(values, part, self.subject, self.entity.key, here) {
            return Err(Fault::Taken);
        }
        let level = self.entity.class as usize;
        if !self.table.columns().each(self.list, Rule::Above { level }) {
            return Err(Fault::KeyClass);
        }
        if !self.borrowed(values, classes) {
            return Err(Fault::Reference);
        }
        if row.is_none() {
            return Err(Fault::Full);
        }
        Ok(())
    }
}
