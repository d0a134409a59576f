// What a lender lends.
ghost use Rattle.std.specs.Prelude.{◌≡◌, true, ◌≢◌, length};
ghost use Rattle.model.specs.Description.{is_column};
ghost use Rattle.model.specs.Tables.{cell, at, lends, rows_of};
ghost use Rattle.model.specs.Buffers.{holding, state_of};
ghost use Rattle.cells.specs.Layout.{Lent, InLevel};
ghost use Rattle.above.specs.Facts.{Reaching};
ghost use Rattle.uplevel.specs.Raising.{strayed};

use crate::meant::Entity;
use above::find::agree;
use cells::layout::{Part, lay};

// The value that a level lends an entity in a column: its own, or 0.
pub(crate) fn lent(
    values: &[u32],
    classes: &[u8],
    part: Part,
    level: usize,
    entity: Entity,
    column: usize,
) -> u32
    requires lent { Lent part.description (length values.now) (length classes.now) }
    requires in_level { InLevel part.description part.relation level × (is_column part.description part.relation column ≡ true) }
    ensures { result ≡ (lends (at part.description (rows_of (state_of part.description (holding values.now classes.now))) part.relation level entity.key) (cell entity.key entity.class) column level).value }
{
    let Some(row) = part.entity(values, classes, level, entity.key, entity.class) else {
        return 0;
    };
    if part.class_at(classes, level, row, column) as usize != level {
        return 0;
    }
    part.value_at(values, level, row, column)
}

// Whether a borrowed value is a reference that names another entity at the subject's level than at the lender's.
pub(crate) fn strays(
    values: &[u32],
    classes: &[u8],
    part: Part,
    column: usize,
    subject: usize,
    from: usize,
    value: u32,
) -> bool
    requires reaching { Reaching part.description part.relation subject from (length values.now) (length classes.now) }
    requires column_nonzero { column ≢ 0 }
    ensures { result ≡ strayed part.description (at part.description (rows_of (state_of part.description (holding values.now classes.now)))) part.relation subject column from value }
{
    let description = part.description;
    let relation = part.relation;
    if column != description.foreign[relation] as usize {
        return false;
    }
    if value == 0 {
        return false;
    }
    let target = lay(description, description.refers[relation] as usize);
    !agree(values, classes, target, subject, from, value)
}
