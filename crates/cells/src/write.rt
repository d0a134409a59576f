// Cells and rows that are stored.
ghost use Rattle.std.specs.Prelude.{◌≡◌, true, length};
ghost use Rattle.model.specs.Tables.{cell, norow};
ghost use Rattle.model.specs.Buffers.{inside};
ghost use Rattle.cells.specs.Layout.{Sized, Lent, InRow};
ghost use Rattle.cells.specs.Changed.{listed_row};
ghost use Rattle.cells.specs.Stored.{CellBecomes, ValueBecomes, RowBecomes};

use crate::layout::Part;

impl Part {
    // A cell is stored. The two buffers are parameters of their own, as `register::run` is lent them.
    pub fn put(
        self,
        values: &mut [u32],
        classes: &mut [u8],
        level: usize,
        row: usize,
        column: usize,
        value: u32,
        class: u8,
    )
        requires lent { Lent self.description (length values.old) (length classes.old) }
        requires cell_inside { inside self.description self.relation level row column ≡ true }
        ensures { CellBecomes self.description self.relation level row column (cell value class) values.old classes.old values.new classes.new }
    {
        let at = self.place(level, row, column);
        values[at] = value;
        classes[at] = class;
    }

    // A cell's value is stored, its class kept.
    pub fn put_value(self, values: &mut [u32], level: usize, row: usize, column: usize, number: u32)
        requires sized { Sized self.description (length values.old) }
        requires cell_inside { inside self.description self.relation level row column ≡ true }
        ensures { ValueBecomes self.description self.relation level row column number values.old values.new }
    {
        values[self.place(level, row, column)] = number;
    }

    // A row comes into use: it becomes these cells, by column.
    pub fn store(
        self,
        values: &mut [u32],
        classes: &mut [u8],
        level: usize,
        row: usize,
        news: [u32; 9],
        owners: [u8; 9],
    )
        requires lent { Lent self.description (length values.old) (length classes.old) }
        requires in_row { InRow self.description self.relation level row }
        ensures { RowBecomes self.description self.relation level row (listed_row news owners) values.old classes.old values.new classes.new }
    {
        for column in 1..self.columns + 1 {
            self.put(
                values,
                classes,
                level,
                row,
                column,
                news[column],
                owners[column],
            );
        }
    }

    // A row goes out of use: it becomes empty throughout.
    pub fn clear(self, values: &mut [u32], classes: &mut [u8], level: usize, row: usize)
        requires lent { Lent self.description (length values.old) (length classes.old) }
        requires in_row { InRow self.description self.relation level row }
        ensures { RowBecomes self.description self.relation level row norow values.old classes.old values.new classes.new }
    {
        self.store(values, classes, level, row, [0; 9], [255; 9]);
    }
}
