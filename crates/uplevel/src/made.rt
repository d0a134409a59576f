// The new row.
ghost use Rattle.std.specs.Prelude.{◌≡◌, true};
ghost use Rattle.model.specs.Description.{is_column, over as over_of};
ghost use Rattle.model.specs.Tables.{cell, rows_of};
ghost use Rattle.change.specs.Facts.{Standing, sight};
ghost use Rattle.uplevel.specs.Raising.{Composed};
ghost use Rattle.uplevel.specs.Raised.{Borrows, Makes};

use crate::lenders::{lent, strays};
use crate::raising::Raising;
use asked::pairs::find;

// A cell that an UPLEVEL makes.
#[derive(Clone, Copy)]
struct New {
    value: u32,
    class: u8,
}

// A row that it makes, by column, as the two lists that `store` takes.
#[derive(Clone, Copy)]
pub struct News {
    pub values: [u32; 9],
    pub classes: [u8; 9],
}

impl Raising<'_> {
    // What a new cell borrows: the lender's, or own null where a reference strays.
    fn take(&self, values: &[u32], classes: &[u8], column: usize, from: usize) -> New
        requires standing { Standing self.now.table.part.description self.now.table.part.relation self.now.subject values.now classes.now × (is_column self.now.table.part.description self.now.table.part.relation column ≡ true) }
        requires lender_seen { over_of self.now.table.part.description self.now.subject from ≡ true }
        ensures { Borrows self.now.table.part.description self.now.subject self.now.table.part.relation (cell self.now.entity.key self.now.entity.class) column from values.now classes.now (cell result.value result.class) }
    {
        let part = self.table.part;
        let value = lent(values, classes, part, from, self.entity, column);
        if strays(values, classes, part, column, self.subject, from, value) {
            let class = self.table.columns().null(column, self.subject as u8);
            return New { value: 0, class };
        }
        let class = from as u8;
        New { value, class }
    }

    // A new cell: the key, what is borrowed, or own null.
    fn borrow(&self, values: &[u32], classes: &[u8], column: usize) -> New
        requires standing { Standing self.now.table.part.description self.now.table.part.relation self.now.subject values.now classes.now × (is_column self.now.table.part.description self.now.table.part.relation column ≡ true) }
        ensures { Makes self.now.table.part.description self.now.subject self.now.table.part.relation (cell self.now.entity.key self.now.entity.class) self.now.list.now column values.now classes.now (cell result.value result.class) }
    {
        if column == 1 {
            return New {
                value: self.entity.key,
                class: self.entity.class,
            };
        }
        let Some(at) = find(self.list, column) else {
            let class = self.table.columns().null(column, self.subject as u8);
            return New { value: 0, class };
        };
        let from = self.list[2 * at + 1] as usize;
        self.take(values, classes, column, from)
    }

    // The new row.
    pub(crate) fn compose(&self, values: &[u32], classes: &[u8]) -> News
        requires standing { Standing self.now.table.part.description self.now.table.part.relation self.now.subject values.now classes.now }
        ensures { Composed self.now.table.part.description self.now.subject self.now.table.part.relation (cell self.now.entity.key self.now.entity.class) self.now.list.now (rows_of (sight self.now.table.part.description self.now.subject values.now classes.now)) result }
    {
        let mut news = [0; 9];
        let mut owners = [255; 9];
        for column in 1..self.table.part.columns + 1 {
            let new = self.borrow(values, classes, column);
            news[column] = new.value;
            owners[column] = new.class;
        }
        News {
            values: news,
            classes: owners,
        }
    }
}
