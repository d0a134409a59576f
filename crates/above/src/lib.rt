// What a statement leaves in the rows above its subject's level.
#![tactic(auto)]

pub mod find;
pub mod plan;
mod reach;
mod references;
mod rows;

ghost use Rattle.above.specs.Entities.{Carrying, PlannedIn};
ghost use Rattle.above.specs.Turns.{LevelsTurn};

use crate::plan::Plan;
use asked::table::Table;

// Every level above is reached, each by itself.
pub fn above(values: &mut [u32], classes: &mut [u8], table: Table, plan: Plan, subject: usize)
    requires carrying { Carrying table.part.description table.part.relation subject values.old classes.old }
    requires planned_in { PlannedIn table.part.description table.part.relation subject plan values.old classes.old }
    ensures { LevelsTurn table.part.description table.part.relation plan subject values.old classes.old values.new classes.new }
{
    let levels = table.part.description.levels as usize;
    for level in 0..levels {
        reach::reach(values, classes, table, plan, subject, level);
    }
}
