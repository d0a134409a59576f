// The effect: where the new row goes, and what becomes of the rows above.
ghost use Rattle.std.specs.Prelude.{◌≡◌, true, false, length, set, replicate, ◌<◌};
ghost use Rattle.model.specs.Buffers.{holding, state_of};
ghost use Rattle.cells.specs.Layout.{Lent, InLevel};
ghost use Rattle.change.specs.Facts.{Standing};
ghost use Rattle.uplevel.specs.Raising.{spot_of, Nulling};
ghost use Rattle.uplevel.specs.Raised.{InUse, Reaches};

use crate::made::News;
use above::above;
use above::plan::{Change, Plan};
use asked::table::Table;
use cells::layout::Part;

// The entity's row, which is `here`, or the lowest empty one.
pub(crate) fn spot(
    values: &[u32],
    classes: &[u8],
    part: Part,
    subject: usize,
    here: Option<usize>,
) -> Option<usize>
    requires lent { Lent part.description (length values.now) (length classes.now) }
    requires in_level { InLevel part.description part.relation subject }
    ensures { result ≡ spot_of part.description part.relation here (state_of part.description (holding values.now classes.now) subject).rows }
{
    if here.is_some() {
        return here;
    }
    part.lowest(values, classes, subject)
}

// Only one row is chosen.
fn choose(row: usize) -> [bool; 64]
    requires { row < 64 }
    ensures { result ≡ set (replicate 64 false) row true }
{
    let mut chosen = [false; 64];
    chosen[row] = true;
    chosen
}

// What becomes of the subject's cells above, by column: what differs from the new row becomes null.
fn changes(news: News) -> [Change; 9]
    ensures { Nulling news result }
{
    let mut changes = [Change::Keep; 9];
    for column in 0..9 {
        let value = news.values[column];
        let class = news.classes[column];
        changes[column] = Change::Only { value, class };
    }
    changes
}

// Where the entity has a row, which is `here`, what differs above from its new row becomes null.
pub(crate) fn reach(
    values: &mut [u32],
    classes: &mut [u8],
    table: Table,
    subject: usize,
    here: Option<usize>,
    news: News,
)
    requires standing { Standing table.part.description table.part.relation subject values.old classes.old }
    requires in_use { InUse table.part.description table.part.relation subject here values.old classes.old }
    ensures { Reaches table.part.description table.part.relation subject news here values.old classes.old values.new classes.new }
{
    let Some(row) = here else {
        return;
    };
    let chosen = choose(row);
    let changes = changes(news);
    let plan = Plan {
        chosen,
        gone: false,
        changes,
    };
    above(values, classes, table, plan, subject);
}
