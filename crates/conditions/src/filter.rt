// The rows that meet one condition.
ghost use Rattle.std.specs.Prelude.{◌≡◌, length};
ghost use Rattle.model.specs.Buffers.{holding, state_of};
ghost use Rattle.model.specs.Conditions.{meets as meets_of};
ghost use Rattle.cells.specs.Layout.{Lent, InRow, InLevel};
ghost use Rattle.conditions.specs.Facts.{Tested, NarrowedAt, asks};

use crate::condition::Asked;
use cells::layout::Part;

// A condition by which a relation's rows are chosen.
#[derive(Clone, Copy)]
pub(crate) struct Filter {
    pub(crate) part: Part,
    pub(crate) asked: Asked,
    // the levels that its constant dominates
    pub(crate) line: [bool; 16],
    pub(crate) ghost tested: { Tested part.description part.relation (asks asked) line },
}

impl Filter {
    // A row meets it.
    fn meets(self, values: &[u32], classes: &[u8], level: usize, row: usize) -> bool
        requires lent { Lent self.part.description (length values.now) (length classes.now) }
        requires in_row { InRow self.part.description self.part.relation level row }
        ensures { result ≡ meets_of self.part.description (asks self.asked) ((state_of self.part.description (holding values.now classes.now) level).rows self.part.relation row) }
    {
        let Asked {
            column,
            constant,
            test,
            of_class,
        } = self.asked;
        if of_class {
            let class = self.part.class_at(classes, level, row, column as usize);
            let below = self.line.get(class as usize).copied().unwrap_or(false);
            return test.passes(class == 255, u32::from(class) == constant, below);
        }
        let value = self.part.value_at(values, level, row, column as usize);
        test.passes(value == 0, value == constant, value <= constant)
    }

    // Of the chosen rows, those stay chosen that meet it.
    pub(crate) fn narrow(
        self,
        values: &[u32],
        classes: &[u8],
        level: usize,
        chosen: &mut [bool; 64],
    )
        requires lent { Lent self.part.description (length values.now) (length classes.now) }
        requires in_level { InLevel self.part.description self.part.relation level }
        ensures { NarrowedAt self.part.description self.part.relation level (asks self.asked) values.now classes.now chosen.old chosen.new }
    {
        for row in 0..self.part.rows {
            if chosen[row] {
                chosen[row] = self.meets(values, classes, level, row);
            }
        }
    }
}
