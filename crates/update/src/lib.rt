// UPDATE.
#![tactic(auto)]

ghost use Rattle.std.specs.Prelude.{◌≡◌, true, ◌||◌, List, eqb, length, ℕ, ◌<◌};
ghost use Rattle.model.specs.Description.{row_count};
ghost use Rattle.model.specs.Tables.{rows_of};
ghost use Rattle.model.specs.Buffers.{holding, state_of};
ghost use Rattle.model.specs.Conditions.{conditions_formed};
ghost use Rattle.model.specs.Insert.{listed_names};
ghost use Rattle.model.specs.Update.{update_formed, update_tests, set_in};
ghost use Rattle.cells.specs.Layout.{Lent, InLevel};
ghost use Rattle.change.specs.Facts.{Standing, Naming, met_rows, Updates, sight};
ghost use Rattle.change.specs.Tests.{ended};
ghost use Rattle.chosen.specs.Choosing.{ByColumn, OnlyUsed, change_listed, set_chosen, RowDone, RowsDone, Leaves};

use above::above;
use above::plan::{Change, Plan};
use asked::columns::Columns;
use asked::pairs::{Rule, find, once};
use asked::table::Table;
use change::named::listed;
use conditions::{chosen, count};
use model::{Answer, Fault};

// Every column exists, none is listed twice, the key is not, and one is.
pub fn formed(list: &[u32], columns: Columns) -> bool
    ensures { result ≡ update_formed columns.levels.description columns.relation list.now }
{
    list.len() % 2 == 0
        && columns.each(list, Rule::Column)
        && once(list)
        && find(list, 1).is_none()
        && 0 < list.len()
}

// What SET lists, for rows of a table at the subject's level.
#[derive(Clone, Copy)]
struct Set<'a> {
    list: &'a [u32],
    table: Table,
    level: usize,
    ghost in_level: { InLevel table.part.description table.part.relation level },
    ghost formed: { update_formed table.part.description table.part.relation list.now ≡ true },
}

impl Set<'_> {
    // What becomes of the subject's cells above, by column: those that are listed become the subject's with that value.
    fn changes(&self) -> [Change; 9]
        ensures { ByColumn (change_listed self.now.level self.now.list.now) result }
    {
        let (pairs, _) = self.list.as_chunks::<2>();
        let class = self.level as u8;
        let mut changes = [Change::Keep; 9];
        for &[column, value] in pairs {
            changes[column as usize] = Change::Take { value, class };
        }
        changes
    }

    // A row gets (value, c) in each SET column.
    fn row(&self, values: &mut [u32], classes: &mut [u8], row: usize)
        requires lent { Lent self.now.table.part.description (length values.old) (length classes.old) }
        requires row_exists { row < row_count self.now.table.part.description self.now.table.part.relation }
        ensures { RowDone self.now.table.part.description self.now.table.part.relation self.now.level row (set_in self.now.level self.now.list.now) values.old classes.old values.new classes.new }
    {
        let part = self.table.part;
        let level = self.level;
        let (pairs, _) = self.list.as_chunks::<2>();
        for &[column, value] in pairs {
            let column = column as usize;
            part.put(values, classes, level, row, column, value, level as u8);
        }
    }

    // Each row that is chosen is set. DELETE's `Rows::clear` is alike but for the call.
    fn rows(&self, values: &mut [u32], classes: &mut [u8], chosen: [bool; 64])
        requires { Lent self.now.table.part.description (length values.old) (length classes.old) }
        ensures { RowsDone self.now.table.part.description self.now.table.part.relation self.now.level chosen (set_in self.now.level self.now.list.now) values.old classes.old values.new classes.new }
    {
        for row in 0..self.table.part.rows {
            if chosen[row] {
                self.row(values, classes, row);
            }
        }
    }

    // What is listed is done to the chosen rows: first above, then at the subject's level.
    fn write(&self, values: &mut [u32], classes: &mut [u8], chosen: [bool; 64])
        requires standing { Standing self.now.table.part.description self.now.table.part.relation self.now.level values.old classes.old }
        requires only_used { OnlyUsed self.now.table.part.description self.now.table.part.relation self.now.level values.old classes.old chosen }
        ensures { Leaves self.now.table.part.description self.now.level (set_chosen self.now.table.part.description self.now.level self.now.table.part.relation self.now.list.now chosen)
            values.old classes.old values.new classes.new }
    {
        let changes = self.changes();
        let plan = Plan {
            chosen,
            gone: false,
            changes,
        };
        above(values, classes, self.table, plan, self.level);
        self.rows(values, classes, chosen);
    }

    // No row is met, or a reference that is listed is null or has its row.
    fn reference(&self, values: &[u32], count: u32) -> bool
        requires { Naming self.now.table.part.description self.now.table.part.relation self.now.level (length values.now) }
        ensures { (classes : List ℕ) → result ≡ (eqb count 0 || listed_names self.now.table.part.description self.now.level self.now.table.part.relation self.now.list.now (rows_of (state_of self.now.table.part.description (holding values.now classes)))) }
    {
        let part = self.table.part;
        count == 0
            || listed(
                values,
                self.list,
                part.description,
                part.relation,
                self.level,
            )
    }

    // The tests, in their order, where `count` rows meet the conditions.
    fn check(
        &self,
        values: &[u32],
        classes: &[u8],
        conditions: &[u32],
        count: u32,
    ) -> Result<(), Fault>
        requires standing { Standing self.now.table.part.description self.now.table.part.relation self.now.level values.now classes.now }
        requires counted { count ≡ met_rows self.now.table.part.description self.now.level self.now.table.part.relation conditions.now (sight self.now.table.part.description self.now.level values.now classes.now) }
        ensures { result ≡ ended (update_tests self.now.table.part.description self.now.level self.now.table.part.relation self.now.list.now conditions.now (sight self.now.table.part.description self.now.level values.now classes.now)) }
    {
        let level = self.level;
        if !self.table.columns().each(self.list, Rule::Takes { level }) {
            return Err(Fault::Range);
        }
        if !self.reference(values, count) {
            return Err(Fault::Reference);
        }
        Ok(())
    }
}

// The tests; then the rows above, and the rows at the subject's level.
pub fn update(
    values: &mut [u32],
    classes: &mut [u8],
    list: &[u32],
    conditions: &[u32],
    table: Table,
    level: usize,
) -> Answer
    requires standing { Standing table.part.description table.part.relation level values.old classes.old }
    requires formed_list { (update_formed table.part.description table.part.relation list.now ≡ true) × (conditions_formed table.part.description table.part.relation conditions.now ≡ true) }
    ensures { Updates table.part.description level table.part.relation list.now conditions.now values.old classes.old values.new classes.new result }
{
    let set = Set { list, table, level };
    let chosen = chosen(values, classes, conditions, table.part, table.order, level);
    let count = count(chosen, table.part.rows);
    set.check(values, classes, conditions, count)?;
    set.write(values, classes, chosen);
    Ok(count)
}
