// UPLEVEL (key value, optional key class, list of column FROM level).
#![tactic(auto)]

mod effect;
mod lenders;
mod made;
mod meant;
mod raising;
mod tests;

ghost use Rattle.std.specs.Prelude.{◌≡◌, true, ◌≤◌};
ghost use Rattle.model.specs.Tables.{cell};
ghost use Rattle.model.specs.Uplevel.{uplevel_formed};
ghost use Rattle.change.specs.Facts.{Standing, Uplevels};
ghost use Rattle.uplevel.specs.Raising.{given_of, class_seen, levels_seen};
ghost use Rattle.uplevel.specs.Raised.{Raises};

use crate::effect::{reach, spot};
use crate::meant::{Entity, own};
use crate::raising::Raising;
use asked::columns::Columns;
use asked::levels::Levels;
use asked::pairs::{Rule, find, once};
use asked::table::Table;
use model::{Answer, Fault};

// ---- whether it is well formed

// Every column and FROM level exists, no column is listed twice, the key is not, there is a key, and a key class that is given exists. A statement
// gives it as a number, and 255 where it gives none.
pub fn formed(list: &[u32], columns: Columns, key: u32, class: usize) -> bool
    ensures { result ≡ uplevel_formed columns.levels.description columns.relation key class list.now }
{
    list.len() % 2 == 0
        && columns.each(list, Rule::From)
        && once(list)
        && find(list, 1).is_none()
        && key != 0
        && (class == 255 || class < columns.levels.description.levels as usize)
}

// ---- the statement

// The tests after the entity is known, and then the new row.
fn raise(values: &mut [u32], classes: &mut [u8], raising: &Raising) -> Answer
    requires { Standing raising.now.table.part.description raising.now.table.part.relation raising.now.subject values.old classes.old }
    ensures { Raises raising.now.table.part.description raising.now.subject raising.now.table.part.relation (cell raising.now.entity.key raising.now.entity.class) raising.now.list.now values.old classes.old values.new classes.new result }
{
    let part = raising.table.part;
    let subject = raising.subject;
    let entity = raising.entity;
    let here = part.entity(values, classes, subject, entity.key, entity.class);
    let row = spot(values, classes, part, subject, here);
    raising.check(values, classes, here, row)?;
    let news = raising.compose(values, classes);
    reach(values, classes, raising.table, subject, here, news);
    // there is a row, or `check` had refused
    part.store(
        values,
        classes,
        subject,
        row.unwrap(),
        news.values,
        news.classes,
    );
    Ok(1)
}

// The key class that is given: 255 says that none is.
fn given(class: usize) -> Option<u8>
    requires { class ≤ 255 }
    ensures { result ≡ given_of class }
{
    if class == 255 {
        return None;
    }
    Some(class as u8)
}

// Whether no key class is given, or the subject sees it.
fn sees(levels: Levels, subject: usize, given: Option<u8>) -> bool
    ensures { result ≡ class_seen levels.description subject given }
{
    match given {
        Some(class) => levels.over(subject, class as usize),
        None => true,
    }
}

// Whether the subject sees the key class that is given and every FROM level.
fn seen(list: &[u32], columns: Columns, subject: usize, given: Option<u8>) -> bool
    ensures { result ≡ levels_seen columns.levels.description subject given list.now }
{
    sees(columns.levels, subject, given) && columns.each(list, Rule::Below { level: subject })
}

// The tests of the levels that are named, in their order, and then the others.
pub fn uplevel(
    values: &mut [u32],
    classes: &mut [u8],
    list: &[u32],
    table: Table,
    subject: usize,
    key: u32,
    class: usize,
) -> Answer
    requires standing { Standing table.part.description table.part.relation subject values.old classes.old }
    requires formed_list { uplevel_formed table.part.description table.part.relation key class list.now ≡ true }
    ensures { Uplevels table.part.description subject table.part.relation key class list.now values.old classes.old values.new classes.new result }
{
    let columns = table.columns();
    let given = given(class);
    if !seen(list, columns, subject, given) {
        return Err(Fault::Unseen);
    }
    if !columns.each(list, Rule::Lends) {
        return Err(Fault::Range);
    }
    let own = own(values, classes, table, subject, key, given)?;
    let entity = Entity { key, class: own };
    let raising = Raising {
        list,
        table,
        subject,
        entity,
    };
    raise(values, classes, &raising)
}
