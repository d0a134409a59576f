// The place of a cell in both buffers.
ghost use Rattle.std.specs.Prelude.{◌≡◌, true};
ghost use Rattle.model.specs.Buffers.{inside};
ghost use Rattle.cells.specs.Layout.{Placed};

use crate::layout::Part;

impl Part {
    // Where a cell stands.
    pub(crate) fn place(self, level: usize, row: usize, column: usize) -> usize
        requires { inside self.description self.relation level row column ≡ true }
        ensures { Placed self.description self.relation level row column result }
    {
        self.start + ((level * self.rows + row) * self.columns + (column - 1))
    }
}
