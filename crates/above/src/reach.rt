// One level above.
ghost use Rattle.std.specs.Prelude.{◌≡◌, length, ◌<◌};
ghost use Rattle.model.specs.Buffers.{holding, state_of};
ghost use Rattle.cells.specs.Layout.{InLevel};
ghost use Rattle.above.specs.Facts.{Reaching, lost_by, given_by};
ghost use Rattle.above.specs.Entities.{Carrying, PlannedIn};
ghost use Rattle.above.specs.Turns.{LevelTurns};

use crate::find::agree;
use crate::plan::{Change, Plan};
use asked::table::Table;
use cells::layout::{Part, lay};

// A relation at a level that a statement reaches, and the subject's own level.
#[derive(Clone, Copy)]
pub(crate) struct Reached {
    pub(crate) part: Part,
    pub(crate) subject: u8,
    pub(crate) level: usize,
    pub(crate) ghost at: { InLevel part.description part.relation level },
    pub(crate) ghost own: { InLevel part.description part.relation subject },
}

// Whether a reference that is taken names another entity at a level than at the subject's.
fn lost(
    values: &[u32],
    classes: &[u8],
    part: Part,
    plan: Plan,
    subject: usize,
    level: usize,
) -> bool
    requires { Reaching part.description part.relation subject level (length values.now) (length classes.now) }
    ensures { result ≡ lost_by part.description part.relation plan subject (state_of part.description (holding values.now classes.now)) level }
{
    let description = part.description;
    let column = description.foreign[part.relation] as usize;
    if column == 0 {
        return false;
    }
    let Change::Take { value: key, .. } = plan.changes[column] else {
        return false;
    };
    if key == 0 {
        return false;
    }
    let target = lay(description, description.refers[part.relation] as usize);
    !agree(values, classes, target, level, subject, key)
}

// The plan as it is at a level: a reference to another entity there becomes own null.
fn given(
    values: &[u32],
    classes: &[u8],
    table: Table,
    plan: Plan,
    subject: usize,
    level: usize,
) -> Plan
    requires { Reaching table.part.description table.part.relation subject level (length values.now) (length classes.now) }
    ensures { result ≡ given_by table.part.description table.part.relation plan subject (state_of table.part.description (holding values.now classes.now)) level }
{
    let part = table.part;
    if !lost(values, classes, part, plan, subject, level) {
        return plan;
    }
    let column = part.description.foreign[part.relation] as usize;
    let class = table.columns().null(column, level as u8);
    plan.hand(column, class)
}

// A level, where it is above the subject's. Whether a taken reference is lost, and which references name rows to be emptied, is read before
// those rows are.
pub(crate) fn reach(
    values: &mut [u32],
    classes: &mut [u8],
    table: Table,
    plan: Plan,
    subject: usize,
    level: usize,
)
    requires carrying { Carrying table.part.description table.part.relation subject values.old classes.old }
    requires planned_in { PlannedIn table.part.description table.part.relation subject plan values.old classes.old × (level < table.part.description.levels) }
    ensures { LevelTurns table.part.description table.part.relation plan subject level values.old classes.old values.new classes.new }
{
    if level == subject {
        return;
    }
    if !table.levels().over(level, subject) {
        return;
    }
    let reached = Reached {
        part: table.part,
        subject: subject as u8,
        level,
    };
    let given = given(values, classes, table, plan, subject, level);
    reached.referrers(values, classes, plan);
    reached.rows(values, classes, given);
}
