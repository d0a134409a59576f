// SELECT.
#![tactic(auto)]

ghost use Rattle.std.specs.Prelude.{◌≡◌, true, [], ◌∷◌, ◌++◌, length, ◌+◌, ◌≤◌, ◌<◌};
ghost use Rattle.bounded.specs.Lists.{write_at};
ghost use Rattle.model.specs.Description.{column_count};
ghost use Rattle.model.specs.Buffers.{holding, state_of};
ghost use Rattle.model.specs.Select.{select_formed, found_at, asked as asked_of};
ghost use Rattle.model.specs.Conditions.{conditions_formed};
ghost use Rattle.cells.specs.Layout.{Sized, Lent, InLevel, InRow};
ghost use Rattle.conditions.specs.Facts.{Asking};
ghost use Rattle.change.specs.Facts.{Standing, Selects};
ghost use Rattle.select.specs.Facts.{Holds, InLevels, Room, held, start, levels_at, shown_levels, found_in, values_of, owners_of, row_shown, wanted as wanted_of};
ghost use Rattle.select.specs.Written.{WroteRow, WroteLevel, WroteLevels, FilledLevels};

use asked::levels::{exist, lists, once};
use asked::table::Table;
use cells::layout::Part;
use conditions::{chosen, count};
use level::Label;
use model::{Answer, Description, Fault};

// Every AT level exists and none is listed twice.
pub fn formed(list: &[u32], description: Description) -> bool
    ensures { result ≡ select_formed description list.now }
{
    if !exist(list, description) {
        return false;
    }
    once(list)
}

// Levels in the order in which they are shown. There are sixteen at most, and no heap: hence the count beside them.
#[derive(Clone, Copy)]
struct InOrder {
    count: usize,
    levels: [u8; 16],
}

// Whether a level is asked for: listed, or the subject's where none is.
fn asked(list: &[u32], subject: usize, level: usize) -> bool
    ensures { result ≡ asked_of subject list.now level }
{
    if list.is_empty() {
        return level == subject;
    }
    lists(list, level)
}

// Whether a level of that height is asked for.
fn wanted(list: &[u32], d: Description, subject: usize, height: u32, level: usize) -> bool
    requires { level < 16 }
    ensures { result ≡ wanted_of d subject list.now height level }
{
    if Label(d.labels[level]).height() != height {
        return false;
    }
    asked(list, subject, level)
}

// One level more.
fn add(before: InOrder, level: u8) -> InOrder
    requires holds { Holds (held before) before }
    requires count_bound { before.count < 16 }
    ensures { Holds (held before ++ (level ∷ [])) result }
{
    let count = before.count;
    let mut levels = before.levels;
    levels[count] = level;
    InOrder {
        count: count + 1,
        levels,
    }
}

// The levels of one height besides, by number.
fn high(list: &[u32], d: Description, subject: usize, height: u32, before: InOrder) -> InOrder
    requires holds { Holds (held before) before }
    requires levels_bound { (d.levels ≤ 16) × (before.count + length (levels_at d subject list.now height) ≤ 16) }
    ensures { Holds (held before ++ levels_at d subject list.now height) result }
{
    let mut found = before;
    for level in 0..d.levels as usize {
        if wanted(list, d, subject, height, level) {
            found = add(found, level as u8);
        }
    }
    found
}

// The levels by height, then number.
fn lay(list: &[u32], d: Description, subject: usize) -> InOrder
    requires { d.levels ≤ 16 }
    ensures { Holds (shown_levels d subject list.now) result }
{
    let none = [0u8; 16];
    let mut found = InOrder {
        count: 0,
        levels: none,
    };
    for height in 0..24 {
        found = high(list, d, subject, height, found);
    }
    found
}

// How many rows are found.
fn rows(values: &[u32], classes: &[u8], conditions: &[u32], table: Table, laid: InOrder) -> u32
    requires lent { Lent table.part.description (length values.now) (length classes.now) × InLevels table.part.description table.part.relation laid }
    requires asking { Asking table.part.description table.order table.part.relation conditions.now }
    ensures { (result ≡ length (found_in table.part.description table.part.relation conditions.now (state_of table.part.description (holding values.now classes.now)) laid)) × (result ≤ 1024) }
{
    let mut rows = 0;
    for i in 0..laid.count {
        let level = laid.levels[i] as usize;
        let chosen = chosen(values, classes, conditions, table.part, table.order, level);
        rows += count(chosen, table.part.rows);
    }
    rows
}

// Where the next row goes in each buffer.
#[derive(Clone, Copy)]
struct At {
    values: usize,
    owners: usize,
}

// A row's values.
fn copy(values: &[u32], shown: &mut [u32], part: Part, level: usize, row: usize, at: At)
    requires sized { Sized part.description (length values.now) × InRow part.description part.relation level row }
    requires relation_in_bounds { at.values + column_count part.description part.relation ≤ length shown.old }
    ensures { shown.new ≡ write_at at.values (values_of part.description values.now part.relation level row) shown.old }
{
    for column in 0..part.columns {
        shown[at.values + column] = part.value_at(values, level, row, column + 1);
    }
}

// A row's classes, then its TC. One function for both buffers would take the buffers' readers as parameters, and be no plainer.
fn own(classes: &[u8], owners: &mut [u8], part: Part, level: usize, row: usize, at: At)
    requires sized { Sized part.description (length classes.now) × InRow part.description part.relation level row }
    requires level_bound { (level < 16) × (at.owners + column_count part.description part.relation < length owners.old) }
    ensures { owners.new ≡ write_at at.owners (owners_of part.description classes.now part.relation level row) owners.old }
{
    let last = part.columns;
    for column in 0..last {
        owners[at.owners + column] = part.class_at(classes, level, row, column + 1);
    }
    owners[at.owners + last] = level as u8;
}

// A row; where the next goes. The four buffers are parameters of their own, as `register::run` is lent them.
fn put(
    values: &[u32],
    classes: &[u8],
    shown: &mut [u32],
    owners: &mut [u8],
    part: Part,
    level: usize,
    row: usize,
    at: At,
) -> At
    requires lent { Lent part.description (length values.now) (length classes.now) × (InRow part.description part.relation level row × (level < 16)) }
    requires room { Room (row_shown part.description part.relation ((state_of part.description (holding values.now classes.now) level).rows part.relation) level true row) at (length shown.old) (length owners.old) }
    ensures { WroteRow part.description part.relation level true row at result values.now classes.now shown.old owners.old shown.new owners.new }
{
    copy(values, shown, part, level, row, at);
    own(classes, owners, part, level, row, at);
    At {
        values: at.values + part.columns,
        owners: at.owners + part.columns + 1,
    }
}

// The rows of a level that meet the conditions; where the next goes.
fn show(
    values: &[u32],
    classes: &[u8],
    conditions: &[u32],
    shown: &mut [u32],
    owners: &mut [u8],
    table: Table,
    level: usize,
    before: At,
) -> At
    requires lent { Lent table.part.description (length values.now) (length classes.now) × (InLevel table.part.description table.part.relation level × Asking table.part.description table.order table.part.relation conditions.now) }
    requires room { Room (found_at table.part.description table.part.relation conditions.now (state_of table.part.description (holding values.now classes.now)) level) before (length shown.old) (length owners.old) }
    ensures { WroteLevel table.part.description table.part.relation level before result conditions.now values.now classes.now
        shown.old owners.old shown.new owners.new }
{
    let part = table.part;
    let chosen = chosen(values, classes, conditions, part, table.order, level);
    let mut at = before;
    for row in 0..part.rows {
        if chosen[row] {
            at = put(values, classes, shown, owners, part, level, row, at);
        }
    }
    at
}

// The rows of every level in order.
fn write(
    values: &[u32],
    classes: &[u8],
    conditions: &[u32],
    shown: &mut [u32],
    owners: &mut [u8],
    table: Table,
    laid: InOrder,
)
    requires lent { Lent table.part.description (length values.now) (length classes.now) × (InLevels table.part.description table.part.relation laid × Asking table.part.description table.order table.part.relation conditions.now) }
    requires room { Room (found_in table.part.description table.part.relation conditions.now (state_of table.part.description (holding values.now classes.now)) laid) start (length shown.old) (length owners.old) }
    ensures { WroteLevels table.part.description table.part.relation laid conditions.now values.now classes.now
        shown.old owners.old shown.new owners.new }
{
    let mut at = At {
        values: 0,
        owners: 0,
    };
    for next in 0..laid.count {
        let level = laid.levels[next] as usize;
        at = show(values, classes, conditions, shown, owners, table, level, at);
    }
}

// The rows, where they fit both buffers.
fn fill(
    values: &[u32],
    classes: &[u8],
    conditions: &[u32],
    shown: &mut [u32],
    owners: &mut [u8],
    table: Table,
    laid: InOrder,
) -> Answer
    requires lent { Lent table.part.description (length values.now) (length classes.now) × InLevels table.part.description table.part.relation laid }
    requires asking { Asking table.part.description table.order table.part.relation conditions.now }
    ensures { FilledLevels table.part.description table.part.relation laid conditions.now values.now classes.now
        shown.old owners.old shown.new owners.new result }
{
    let found = rows(values, classes, conditions, table, laid);
    let columns = table.part.columns;
    if shown.len() < found as usize * columns {
        return Err(Fault::Short);
    }
    if owners.len() < found as usize * (columns + 1) {
        return Err(Fault::Short);
    }
    write(values, classes, conditions, shown, owners, table, laid);
    Ok(found)
}

// Every AT level is seen, and then the rows.
pub fn select(
    values: &[u32],
    classes: &[u8],
    list: &[u32],
    conditions: &[u32],
    shown: &mut [u32],
    owners: &mut [u8],
    table: Table,
    subject: usize,
) -> Answer
    requires standing { Standing table.part.description table.part.relation subject values.now classes.now }
    requires formed_list { (select_formed table.part.description list.now ≡ true) × (conditions_formed table.part.description table.part.relation conditions.now ≡ true) }
    ensures { Selects table.part.description subject table.part.relation list.now conditions.now values.now classes.now
        shown.old owners.old shown.new owners.new result }
{
    if !table.levels().seen(list, subject) {
        return Err(Fault::Unseen);
    }
    let laid = lay(list, table.part.description, subject);
    fill(values, classes, conditions, shown, owners, table, laid)
}
