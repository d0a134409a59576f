// What a cell or a row holds.
ghost use Rattle.std.specs.Prelude.{◌≡◌, true, length};
ghost use Rattle.model.specs.Tables.{nocell, same, empty_row};
ghost use Rattle.model.specs.Buffers.{holding, inside, state_of};
ghost use Rattle.cells.specs.Layout.{Sized, Lent, InRow};
ghost use Rattle.cells.specs.Changed.{value_at, class_at};

use crate::layout::Part;

impl Part {
    // The value of a cell. One generic function under this one and the next would be no plainer than the line that each holds.
    pub fn value_at(self, values: &[u32], level: usize, row: usize, column: usize) -> u32
        requires sized { Sized self.description (length values.now) }
        requires cell_inside { inside self.description self.relation level row column ≡ true }
        ensures { result ≡ value_at self.description values.now self.relation level row column }
    {
        values[self.place(level, row, column)]
    }

    // The class of a cell.
    pub fn class_at(self, classes: &[u8], level: usize, row: usize, column: usize) -> u8
        requires sized { Sized self.description (length classes.now) }
        requires cell_inside { inside self.description self.relation level row column ≡ true }
        ensures { result ≡ class_at self.description classes.now self.relation level row column }
    {
        classes[self.place(level, row, column)]
    }

    // Whether a cell is (0, 255).
    fn is_null(
        self,
        values: &[u32],
        classes: &[u8],
        level: usize,
        row: usize,
        column: usize,
    ) -> bool
        requires lent { Lent self.description (length values.now) (length classes.now) }
        requires cell_inside { inside self.description self.relation level row column ≡ true }
        ensures { result ≡ same ((state_of self.description (holding values.now classes.now) level).rows self.relation row column) nocell }
    {
        if self.value_at(values, level, row, column) != 0 {
            return false;
        }
        self.class_at(classes, level, row, column) == 255
    }

    // Whether a row is empty throughout.
    pub(crate) fn is_empty(self, values: &[u32], classes: &[u8], level: usize, row: usize) -> bool
        requires lent { Lent self.description (length values.now) (length classes.now) }
        requires in_row { InRow self.description self.relation level row }
        ensures { result ≡ empty_row self.description self.relation ((state_of self.description (holding values.now classes.now) level).rows self.relation row) }
    {
        for column in 0..self.columns {
            if !self.is_null(values, classes, level, row, column + 1) {
                return false;
            }
        }
        true
    }
}
