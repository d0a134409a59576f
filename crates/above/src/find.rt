// Rows of one entity at two levels.
ghost use Rattle.std.specs.Prelude.{◌≡◌, ◌≢◌, length, ◌<◌};
ghost use Rattle.model.specs.Description.{row_count};
ghost use Rattle.model.specs.Buffers.{holding, state_of};
ghost use Rattle.cells.specs.Layout.{Sized, Lent, InLevel, InRow, Row};
ghost use Rattle.cells.specs.Changed.{key_place};
ghost use Rattle.above.specs.Facts.{OneRow, gone_by};
ghost use Rattle.above.specs.Entities.{touched_at, same_at};

use crate::plan::Plan;
use crate::reach::Reached;
use cells::layout::Part;

// The row of a key at a level, looked for at `hint` first: entities tend to stand in the same row everywhere.
fn near(values: &[u32], part: Part, level: usize, key: u32, hint: usize) -> Option<usize>
    requires sized { Sized part.description (length values.now) × InRow part.description part.relation level hint }
    requires one_row { OneRow part.description values.now part.relation level × (key ≢ 0) }
    ensures { Row part.description part.relation (key_place part.description values.now part.relation level key) result }
{
    if part.value_at(values, level, hint, 1) == key {
        return Some(hint);
    }
    part.find(values, level, key)
}

impl Reached {
    // Whether the entity of a row has a chosen row at the subject's level.
    pub(crate) fn touched(self, values: &[u32], classes: &[u8], plan: Plan, row: usize) -> bool
        requires lent { Lent self.part.description (length values.now) (length classes.now) × (row < row_count self.part.description self.part.relation) }
        requires one_row { OneRow self.part.description values.now self.part.relation self.subject }
        ensures { result ≡ touched_at self.part.description self.part.relation plan self.subject (state_of self.part.description (holding values.now classes.now)) self.level row }
    {
        let subject = self.subject as usize;
        let key = self.part.value_at(values, self.level, row, 1);
        if key == 0 {
            return false;
        }
        let Some(there) = near(values, self.part, subject, key, row) else {
            return false;
        };
        if !plan.chosen[there] {
            return false;
        }
        let class = self.part.class_at(classes, self.level, row, 1);
        self.part.class_at(classes, subject, there, 1) == class
    }

    // Whether the row with a key is emptied: a chosen entity of the subject's own.
    pub(crate) fn gone(self, values: &[u32], classes: &[u8], plan: Plan, key: u32) -> bool
        requires lent { Lent self.part.description (length values.now) (length classes.now) × (self.subject < 16) }
        ensures { result ≡ gone_by self.part.description self.part.relation plan self.subject (state_of self.part.description (holding values.now classes.now)) self.level key }
    {
        if !plan.gone {
            return false;
        }
        let subject = self.subject as usize;
        let Some(own) = self.part.find(values, subject, key) else {
            return false;
        };
        if !plan.chosen[own] {
            return false;
        }
        if self.part.class_at(classes, subject, own, 1) != self.subject {
            return false;
        }
        let Some(row) = self.part.find(values, self.level, key) else {
            return false;
        };
        self.part.class_at(classes, self.level, row, 1) == self.subject
    }
}

// Whether the rows with a key at two levels are one entity, or neither exists.
pub fn agree(values: &[u32], classes: &[u8], part: Part, one: usize, other: usize, key: u32) -> bool
    requires lent { Lent part.description (length values.now) (length classes.now) × (key ≢ 0) }
    requires in_level { InLevel part.description part.relation one × InLevel part.description part.relation other }
    ensures { result ≡ same_at part.description part.relation (state_of part.description (holding values.now classes.now)) one other key }
{
    let here = part.find(values, one, key);
    let there = part.find(values, other, key);
    match (here, there) {
        (None, None) => true,
        (Some(here), Some(there)) => {
            let class = part.class_at(classes, other, there, 1);
            part.class_at(classes, one, here, 1) == class
        }
        (None, Some(_)) => false,
        (Some(_), None) => false,
    }
}
