// A statement on legal tables.
ghost use Rattle.std.specs.Prelude.{◌≡◌, true};
ghost use Rattle.model.specs.Description.{sound, is_relation};
ghost use Rattle.model.specs.Run.{formed as formed_of};
ghost use Rattle.register.specs.Facts.{Judged};
ghost use Rattle.register.specs.Calls.{request, Runs, Carries};

use crate::formed;
use asked::levels::Levels;
use asked::table::Table;
use cells::layout::lay;
use delete::delete;
use insert::insert;
use model::{Answer, Fault, Statement, What};
use select::select;
use update::update;
use uplevel::uplevel;

// What a statement about a relation is about.
fn about(levels: Levels, relation: usize) -> Table
    requires { (sound levels.description ≡ true) × (is_relation levels.description relation ≡ true) }
    ensures described { result.part.description ≡ levels.description }
    ensures of_relation { result.part.relation ≡ relation }
{
    let order = levels.order;
    let part = lay(levels.description, relation);
    Table { part, order }
}

// A statement that is well formed is carried out. The buffers are parameters of their own, as `run` is lent them.
fn carry(
    values: &mut [u32],
    classes: &mut [u8],
    list: &[u32],
    conditions: &[u32],
    shown: &mut [u32],
    owners: &mut [u8],
    levels: Levels,
    statement: Statement,
) -> Answer
    requires judged { Judged levels.description values.old classes.old }
    requires well_formed { formed_of levels.description (request statement list.now conditions.now shown.old owners.old) ≡ true }
    ensures { Carries levels.description statement list conditions values classes shown owners result }
{
    let level = statement.level as usize;
    let table = about(levels, statement.relation as usize);
    match statement.what {
        What::Insert => insert(values, classes, list, table, level),
        What::Delete => delete(values, classes, conditions, table, level),
        What::Update => update(values, classes, list, conditions, table, level),
        What::Uplevel { key, class } => {
            uplevel(values, classes, list, table, level, key, class as usize)
        }
        What::Select => select(
            values, classes, list, conditions, shown, owners, table, level,
        ),
    }
}

// A statement is refused where it is not well formed, and carried out else.
pub(crate) fn serve(
    values: &mut [u32],
    classes: &mut [u8],
    list: &[u32],
    conditions: &[u32],
    shown: &mut [u32],
    owners: &mut [u8],
    levels: Levels,
    statement: Statement,
) -> Answer
    requires { Judged levels.description values.old classes.old }
    ensures { Runs levels.description statement list conditions values classes shown owners result }
{
    if !formed::statement(list, conditions, levels, statement) {
        return Err(Fault::Malformed);
    }
    carry(
        values, classes, list, conditions, shown, owners, levels, statement,
    )
}
