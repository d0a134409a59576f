// Whether a statement and its lists are well formed: what is answered 4 where they are not.
ghost use Rattle.std.specs.Prelude.{◌≡◌, true};
ghost use Rattle.model.specs.declared.What.TheVariants as Whats;
ghost use Rattle.model.specs.Description.{sound};
ghost use Rattle.model.specs.Run.{formed_as};
ghost use Rattle.register.specs.Calls.{well_formed};

use asked::columns::Columns;
use asked::levels::Levels;
use model::{Statement, What};

fn inserts(list: &[u32], conditions: &[u32], columns: Columns) -> bool
    ensures { result ≡ formed_as columns.levels.description columns.relation Whats.Insert list.now conditions.now }
{
    if !conditions.is_empty() {
        return false;
    }
    insert::formed(list, columns)
}

fn deletes(list: &[u32], conditions: &[u32], columns: Columns) -> bool
    ensures { result ≡ formed_as columns.levels.description columns.relation Whats.Delete list.now conditions.now }
{
    if !list.is_empty() {
        return false;
    }
    conditions::formed(
        conditions,
        columns.levels.description,
        columns.relation,
        columns.count,
    )
}

fn updates(list: &[u32], conditions: &[u32], columns: Columns) -> bool
    ensures { result ≡ formed_as columns.levels.description columns.relation Whats.Update list.now conditions.now }
{
    if !update::formed(list, columns) {
        return false;
    }
    conditions::formed(
        conditions,
        columns.levels.description,
        columns.relation,
        columns.count,
    )
}

fn uplevels(list: &[u32], conditions: &[u32], columns: Columns, key: u32, class: usize) -> bool
    ensures { result ≡ formed_as columns.levels.description columns.relation (Whats.Uplevel key class) list.now conditions.now }
{
    if !conditions.is_empty() {
        return false;
    }
    uplevel::formed(list, columns, key, class)
}

fn selects(list: &[u32], conditions: &[u32], columns: Columns) -> bool
    ensures { result ≡ formed_as columns.levels.description columns.relation Whats.Select list.now conditions.now }
{
    if !select::formed(list, columns.levels.description) {
        return false;
    }
    conditions::formed(
        conditions,
        columns.levels.description,
        columns.relation,
        columns.count,
    )
}

// By what the statement asks for.
fn what(list: &[u32], conditions: &[u32], columns: Columns, what: What) -> bool
    ensures { result ≡ formed_as columns.levels.description columns.relation what list.now conditions.now }
{
    match what {
        What::Insert => inserts(list, conditions, columns),
        What::Delete => deletes(list, conditions, columns),
        What::Update => updates(list, conditions, columns),
        What::Uplevel { key, class } => uplevels(list, conditions, columns, key, class as usize),
        What::Select => selects(list, conditions, columns),
    }
}

// The subject's level and the relation exist, and the lists are well formed.
pub(crate) fn statement(
    list: &[u32],
    conditions: &[u32],
    levels: Levels,
    statement: Statement,
) -> bool
    requires { sound levels.description ≡ true }
    ensures { result ≡ well_formed levels.description statement list.now conditions.now }
{
    if levels.description.levels <= statement.level {
        return false;
    }
    if statement.relation == 0 {
        return false;
    }
    if levels.description.relations < statement.relation {
        return false;
    }
    let relation = statement.relation as usize;
    let columns = Columns {
        levels,
        relation,
        count: levels.description.columns[relation] as usize,
    };
    what(list, conditions, columns, statement.what)
}
