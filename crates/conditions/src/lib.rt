// Conditions: whether they are well formed, and which rows meet them.
#![tactic(auto)]

mod condition;
mod filter;

ghost use Rattle.std.specs.Prelude.{◌≡◌, length, ◌≤◌};
ghost use Rattle.model.specs.Conditions.{condition_formed, conditions_formed};
ghost use Rattle.model.specs.Description.{column_count, row_count};
ghost use Rattle.cells.specs.Layout.{Sized, Lent, InLevel};
ghost use Rattle.asked.specs.Known.{Ordered};
ghost use Rattle.conditions.specs.Facts.{Line, Asking, ChosenBy, ChosenAt, Counted, used_row, condition_of};

use crate::condition::Asked;
use crate::filter::Filter;
use cells::layout::Part;
use model::Description;

// ---- whether they are well formed

// One condition is well formed.
#[tactic(auto, using(crate::proofs::Meeting::unread))]
fn well_formed(
    condition: [u32; 4],
    description: Description,
    relation: usize,
    columns: usize,
) -> bool
    requires { columns ≡ column_count description relation }
    ensures { result ≡ condition_formed description relation (condition_of condition) }
{
    match Asked::read(condition) {
        Some(asked) => asked.formed(description, relation, columns),
        None => false,
    }
}

// There are at most four conditions, each well formed and none cut.
pub fn formed(conditions: &[u32], description: Description, relation: usize, columns: usize) -> bool
    requires { columns ≡ column_count description relation }
    ensures { result ≡ conditions_formed description relation conditions.now }
{
    let (conditions, cut) = conditions.as_chunks::<4>();
    if !cut.is_empty() {
        return false;
    }
    if 4 < conditions.len() {
        return false;
    }
    conditions.iter().all(|condition| well_formed(*condition, description, relation, columns))
}

// ---- which rows meet them

// The levels that a constant dominates; none where it is no level.
fn line(description: Description, order: [[bool; 16]; 16], constant: u32) -> [bool; 16]
    requires { Ordered description order }
    ensures { Line description constant result }
{
    order.get(constant as usize).copied().unwrap_or([false; 16])
}

// The rows of a level that are in use; 64, the most that a relation has, since memory is fixed.
fn used(values: &[u32], part: Part, level: usize) -> [bool; 64]
    requires sized { Sized part.description (length values.now) }
    requires in_level { InLevel part.description part.relation level }
    ensures { ChosenBy (row_count part.description part.relation) (used_row part.description values.now part.relation level) result }
{
    let mut chosen = [false; 64];
    for row in 0..part.rows {
        chosen[row] = part.value_at(values, level, row, 1) != 0;
    }
    chosen
}

// The rows of a level that are in use and meet every condition.
pub fn chosen(
    values: &[u32],
    classes: &[u8],
    conditions: &[u32],
    part: Part,
    order: [[bool; 16]; 16],
    level: usize,
) -> [bool; 64]
    requires lent { Lent part.description (length values.now) (length classes.now) }
    requires in_level { InLevel part.description part.relation level }
    requires asking { Asking part.description order part.relation conditions.now }
    ensures { ChosenAt part.description part.relation level conditions.now values.now classes.now result }
{
    let mut chosen = used(values, part, level);
    let (each, _) = conditions.as_chunks::<4>();
    for condition in each {
        let asked = Asked::read(*condition).unwrap();
        let line = line(part.description, order, asked.constant);
        let filter = Filter { part, asked, line };
        filter.narrow(values, classes, level, &mut chosen);
    }
    chosen
}

// How many of the first rows are chosen.
pub fn count(chosen: [bool; 64], rows: usize) -> u32
    requires { rows ≤ 64 }
    ensures { Counted rows chosen result }
{
    let mut count = 0;
    // no `filter` and `count`: their loop branches at each row, and a SELECT under conditions is then measurably slower
    for row in 0..rows {
        if chosen[row] {
            count += 1;
        }
    }
    count
}
