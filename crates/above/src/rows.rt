// The rows above of the relation that a statement is about.
ghost use Rattle.std.specs.Prelude.{◌≡◌, length, ◌<◌};
ghost use Rattle.model.specs.Description.{row_count};
ghost use Rattle.cells.specs.Layout.{Lent, InRow};
ghost use Rattle.above.specs.Facts.{OneRow, Apart};
ghost use Rattle.above.specs.Turns.{CellsTurn, RowTurns, RowsTurn};

use crate::plan::Plan;
use crate::reach::Reached;
use cells::layout::Part;

// The cells of a row that are of the subject's class change as planned.
fn cells(
    values: &mut [u32],
    classes: &mut [u8],
    part: Part,
    plan: Plan,
    subject: u8,
    level: usize,
    row: usize,
)
    requires lent { Lent part.description (length values.old) (length classes.old) }
    requires in_row { InRow part.description part.relation level row }
    ensures { CellsTurn part.description part.relation plan subject level row values.old classes.old values.new classes.new }
{
    for column in 1..part.columns + 1 {
        if part.class_at(classes, level, row, column) != subject {
            continue;
        }
        let x = part.value_at(values, level, row, column);
        let (new, whose) = plan.changes[column].turns(x, subject);
        part.put(values, classes, level, row, column, new, whose);
    }
}

impl Reached {
    // A row: it stays, is emptied, or its cells of the subject's class change.
    fn row(self, values: &mut [u32], classes: &mut [u8], plan: Plan, row: usize)
        requires lent { Lent self.part.description (length values.old) (length classes.old) × (row < row_count self.part.description self.part.relation) }
        requires one_row { OneRow self.part.description values.old self.part.relation self.subject }
        ensures { RowTurns self.part.description self.part.relation plan self.subject self.level row values.old classes.old values.new classes.new }
    {
        if !self.touched(values, classes, plan, row) {
            return;
        }
        let class = self.part.class_at(classes, self.level, row, 1);
        if plan.gone && class == self.subject {
            self.part.clear(values, classes, self.level, row);
            return;
        }
        cells(
            values,
            classes,
            self.part,
            plan,
            self.subject,
            self.level,
            row,
        );
    }

    // Every row of the relation at the level.
    pub(crate) fn rows(self, values: &mut [u32], classes: &mut [u8], plan: Plan)
        requires lent { Lent self.part.description (length values.old) (length classes.old) }
        requires apart { Apart self.subject self.level × OneRow self.part.description values.old self.part.relation self.subject }
        ensures { RowsTurn self.part.description self.part.relation plan self.subject self.level values.old classes.old values.new classes.new }
    {
        for row in 0..self.part.rows {
            self.row(values, classes, plan, row);
        }
    }
}
