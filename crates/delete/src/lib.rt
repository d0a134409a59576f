// DELETE.
#![tactic(auto)]

ghost use Rattle.std.specs.Prelude.{◌≡◌, true, length, ◌<◌};
ghost use Rattle.model.specs.Tables.{norow};
ghost use Rattle.model.specs.Conditions.{conditions_formed};
ghost use Rattle.model.specs.Delete.{delete_tests};
ghost use Rattle.cells.specs.Layout.{Sized, Lent, InLevel};
ghost use Rattle.conditions.specs.Facts.{ChosenAt};
ghost use Rattle.change.specs.Facts.{Standing, Naming, Deletes, sight};
ghost use Rattle.change.specs.Tests.{ended};
ghost use Rattle.chosen.specs.Choosing.{OnlyUsed, empty_chosen, RowsDone, Leaves, names_chosen, refers_chosen, referred_chosen};

use above::above;
use above::plan::{Change, Plan};
use asked::table::Table;
use cells::layout::{Part, lay};
use conditions::{chosen, count};
use model::{Answer, Fault};

// The rows of a table at the subject's level, and which of them are chosen.
#[derive(Clone, Copy)]
struct Rows {
    table: Table,
    level: usize,
    chosen: [bool; 64],
    ghost in_level: { InLevel table.part.description table.part.relation level },
}

impl Rows {
    // Whether the row with a key is chosen. Key 0 is null (01), and names no row.
    fn names(&self, values: &[u32], key: u32) -> bool
        requires { Sized self.now.table.part.description (length values.now) }
        ensures { result ≡ names_chosen self.now.table.part.description values.now self.now.chosen self.now.table.part.relation self.now.level key }
    {
        if key == 0 {
            return false;
        }
        match self.table.part.find(values, self.level, key) {
            Some(row) => self.chosen[row],
            None => false,
        }
    }

    // Whether a row of a relation at the subject's level refers to a chosen row.
    fn refers(&self, values: &[u32], referrer: usize) -> bool
        requires naming { Naming self.now.table.part.description referrer self.now.level (length values.now) }
        requires relation_nonzero { 0 < self.now.table.part.relation }
        ensures { result ≡ refers_chosen self.now.table.part.description values.now self.now.chosen self.now.table.part.relation self.now.level referrer }
    {
        let description = self.table.part.description;
        if description.refers[referrer] as usize != self.table.part.relation {
            return false;
        }
        let place = lay(description, referrer);
        let column = description.foreign[referrer] as usize;
        for row in 0..place.rows {
            let key = place.value_at(values, self.level, row, column);
            if self.names(values, key) {
                return true;
            }
        }
        false
    }

    // Whether a row at the subject's level refers to a row to be emptied.
    fn referred(&self, values: &[u32]) -> bool
        requires { Naming self.now.table.part.description self.now.table.part.relation self.now.level (length values.now) }
        ensures { result ≡ referred_chosen self.now.table.part.description values.now self.now.chosen self.now.table.part.relation self.now.level }
    {
        for referrer in 1..self.table.part.description.relations as usize + 1 {
            if self.refers(values, referrer) {
                return true;
            }
        }
        false
    }

    // The tests, in their order, where the rows that meet the conditions are chosen.
    fn check(&self, values: &[u32], classes: &[u8], conditions: &[u32]) -> Result<(), Fault>
        requires naming { Naming self.now.table.part.description self.now.table.part.relation self.now.level (length values.now) }
        requires chosen_at { ChosenAt self.now.table.part.description self.now.table.part.relation self.now.level conditions.now values.now classes.now self.now.chosen }
        ensures { result ≡ ended (delete_tests self.now.table.part.description self.now.level self.now.table.part.relation conditions.now (sight self.now.table.part.description self.now.level values.now classes.now)) }
    {
        if self.referred(values) {
            return Err(Fault::Referred);
        }
        Ok(())
    }

    // Each row that is chosen is emptied. UPDATE's `Set::rows` is alike but for the call: a closure over both buffers would be no plainer.
    fn clear(&self, values: &mut [u32], classes: &mut [u8])
        requires { Lent self.now.table.part.description (length values.old) (length classes.old) }
        ensures { RowsDone self.now.table.part.description self.now.table.part.relation self.now.level self.now.chosen (λ R. norow) values.old classes.old values.new classes.new }
    {
        let part = self.table.part;
        for row in 0..part.rows {
            if self.chosen[row] {
                part.clear(values, classes, self.level, row);
            }
        }
    }

    // The chosen rows are emptied: first what is above, then those at the subject's level.
    fn write(&self, values: &mut [u32], classes: &mut [u8])
        requires standing { Standing self.now.table.part.description self.now.table.part.relation self.now.level values.old classes.old }
        requires only_used { OnlyUsed self.now.table.part.description self.now.table.part.relation self.now.level values.old classes.old self.now.chosen }
        ensures { Leaves self.now.table.part.description self.now.level (empty_chosen self.now.table.part.description self.now.level self.now.table.part.relation self.now.chosen) values.old classes.old values.new classes.new }
    {
        let null = Change::Only {
            value: 0,
            class: 255,
        };
        let plan = Plan {
            chosen: self.chosen,
            gone: true,
            changes: [null; 9],
        };
        above(values, classes, self.table, plan, self.level);
        self.clear(values, classes);
    }
}

// The tests; then the rows above, and the rows at the subject's level.
pub fn delete(
    values: &mut [u32],
    classes: &mut [u8],
    conditions: &[u32],
    table: Table,
    level: usize,
) -> Answer
    requires standing { Standing table.part.description table.part.relation level values.old classes.old }
    requires formed_conditions { conditions_formed table.part.description table.part.relation conditions.now ≡ true }
    ensures { Deletes table.part.description level table.part.relation conditions.now values.old classes.old values.new classes.new result }
{
    let chosen = chosen(values, classes, conditions, table.part, table.order, level);
    let rows = Rows {
        table,
        level,
        chosen,
    };
    rows.check(values, classes, conditions)?;
    rows.write(values, classes);
    Ok(count(chosen, table.part.rows))
}
