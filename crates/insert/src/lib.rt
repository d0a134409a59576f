// INSERT (columns and values).
#![tactic(auto)]

ghost use Rattle.std.specs.Prelude.{◌≡◌, true, ◌≤◌};
ghost use Rattle.model.specs.Buffers.{holding, state_of};
ghost use Rattle.model.specs.Effect.{lowest_empty};
ghost use Rattle.model.specs.Insert.{insert_formed, insert_tests, new_row};
ghost use Rattle.cells.specs.Layout.{Row};
ghost use Rattle.change.specs.Facts.{Standing, Inserts, Filled, sight, value_listed};
ghost use Rattle.change.specs.Tests.{ended};

use asked::columns::Columns;
use asked::pairs::{Rule, find, once};
use asked::table::Table;
use change::named::listed;
use model::{Answer, Fault};

// Every column exists, none is listed twice, and the key is there.
pub fn formed(list: &[u32], columns: Columns) -> bool
    ensures { result ≡ insert_formed columns.levels.description columns.relation list.now }
{
    list.len() % 2 == 0 && columns.each(list, Rule::Column) && once(list) && value(list, 1) != 0
}

// The value that a listed column gets, and 0, which is null, for the others.
fn value(list: &[u32], column: usize) -> u32
    ensures { result ≡ value_listed list.now column }
{
    match find(list, column) {
        Some(at) => list[2 * at + 1],
        None => 0,
    }
}

// The class: the subject's in a listed column, own null's in the others.
fn class(list: &[u32], columns: Columns, column: usize, level: u8) -> u8
    ensures { result ≡ (new_row columns.levels.description level columns.relation list.now column).class }
{
    match find(list, column) {
        Some(_) => level,
        None => columns.null(column, level),
    }
}

// The values of the new row, by column. Its classes stand beside them, as in the two buffers that the call lends.
fn news(list: &[u32], columns: usize) -> [u32; 9]
    requires { columns ≤ 8 }
    ensures { Filled columns (value_listed list.now) result }
{
    let mut news = [0; 9];
    for column in 1..columns + 1 {
        news[column] = value(list, column);
    }
    news
}

// Its classes, by column.
fn owners(list: &[u32], columns: Columns, level: u8) -> [u8; 9]
    ensures { Filled columns.count (λ k. (new_row columns.levels.description level columns.relation list.now k).class) result }
{
    let mut owners = [255; 9];
    for column in 1..columns.count + 1 {
        owners[column] = class(list, columns, column, level);
    }
    owners
}

// The tests, in their order, where the lowest empty row is known.
fn check(
    values: &[u32],
    classes: &[u8],
    list: &[u32],
    table: Table,
    level: usize,
    row: Option<usize>,
) -> Result<(), Fault>
    requires standing { Standing table.part.description table.part.relation level values.now classes.now }
    requires formed_list { insert_formed table.part.description table.part.relation list.now ≡ true }
    requires row { Row table.part.description table.part.relation (lowest_empty table.part.description (state_of table.part.description (holding values.now classes.now) level).rows table.part.relation) row }
    ensures { result ≡ ended (insert_tests table.part.description level table.part.relation list.now (sight table.part.description level values.now classes.now)) }
{
    let part = table.part;
    if !table.columns().each(list, Rule::Takes { level }) {
        return Err(Fault::Range);
    }
    let key = value(list, 1);
    if part.find(values, level, key).is_some() {
        return Err(Fault::Taken);
    }
    if !listed(values, list, part.description, part.relation, level) {
        return Err(Fault::Reference);
    }
    if row.is_none() {
        return Err(Fault::Full);
    }
    Ok(())
}

// The tests, and then the new row.
pub fn insert(
    values: &mut [u32],
    classes: &mut [u8],
    list: &[u32],
    table: Table,
    level: usize,
) -> Answer
    requires standing { Standing table.part.description table.part.relation level values.old classes.old }
    requires formed_list { insert_formed table.part.description table.part.relation list.now ≡ true }
    ensures { Inserts table.part.description level table.part.relation list.now values.old classes.old values.new classes.new result }
{
    let part = table.part;
    let row = part.lowest(values, classes, level);
    check(values, classes, list, table, level, row)?;
    let columns = table.columns();
    let news = news(list, columns.count);
    let owners = owners(list, columns, level as u8);
    // there is a row, or `check` had refused
    part.store(values, classes, level, row.unwrap(), news, owners);
    Ok(1)
}
