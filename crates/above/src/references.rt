// The references above to rows that are emptied.
ghost use Rattle.std.specs.Prelude.{◌≡◌, true, length, ◌<◌};
ghost use Rattle.model.specs.Description.{sound, is_relation, row_count};
ghost use Rattle.model.specs.Buffers.{holding, inside, state_of};
ghost use Rattle.cells.specs.Layout.{Lent, InLevel, InRow};
ghost use Rattle.above.specs.Facts.{Apart, Referring};
ghost use Rattle.above.specs.Entities.{owns_at, keeps_at};
ghost use Rattle.above.specs.Turns.{ReferenceTurns, ReferencesTurn, ReferrerTurns, ReferrersTurn};

use crate::plan::Plan;
use crate::reach::Reached;
use cells::layout::{Part, lay};

// Where the cells stand of a relation that refers to the one whose rows are emptied.
#[derive(Clone, Copy)]
struct Referrer {
    named: Reached,
    part: Part,
    ghost same: { named.part.description ≡ part.description },
    ghost referring: { Referring part.description named.part.relation part.relation named.subject named.level },
}

// Whether a row's entity has a row at the subject's level, or is none and has none.
fn owns(
    values: &[u32],
    classes: &[u8],
    part: Part,
    subject: usize,
    level: usize,
    row: usize,
) -> bool
    requires lent { Lent part.description (length values.now) (length classes.now) × InRow part.description part.relation level row }
    requires in_level { InLevel part.description part.relation subject }
    ensures { result ≡ owns_at part.description part.relation subject (state_of part.description (holding values.now classes.now)) level row }
{
    let key = part.value_at(values, level, row, 1);
    let class = part.class_at(classes, level, row, 1);
    let Some(own) = part.find(values, subject, key) else {
        return key == 0 && class == 255;
    };
    part.class_at(classes, subject, own, 1) == class
}

// Whether a reference is one that the subject itself holds. It stays: had it named a row to be emptied, the statement would have been refused.
fn kept(
    values: &[u32],
    classes: &[u8],
    part: Part,
    column: usize,
    subject: u8,
    level: usize,
    row: usize,
) -> bool
    requires lent { Lent part.description (length values.now) (length classes.now) × InRow part.description part.relation level row }
    requires in_level { InLevel part.description part.relation subject × (inside part.description part.relation level row column ≡ true) }
    ensures { result ≡ keeps_at part.description part.relation subject (state_of part.description (holding values.now classes.now)) level row column }
{
    if part.class_at(classes, level, row, column) != subject {
        return false;
    }
    owns(values, classes, part, subject as usize, level, row)
}

impl Referrer {
    // A reference whose named row is emptied becomes null, class kept.
    fn reference(self, values: &mut [u32], classes: &[u8], plan: Plan, row: usize)
        requires lent { Lent self.part.description (length values.old) (length classes.now) }
        requires in_row { row < row_count self.part.description self.part.relation }
        ensures { ReferenceTurns self.part.description self.named.part.relation plan self.named.subject self.named.level self.part.relation row values.old classes.now values.new classes.now }
    {
        let subject = self.named.subject;
        let level = self.named.level;
        let column = self.part.description.foreign[self.part.relation] as usize;
        let key = self.part.value_at(values, level, row, column);
        if !self.named.gone(values, classes, plan, key) {
            return;
        }
        if kept(values, classes, self.part, column, subject, level, row) {
            return;
        }
        self.part.put_value(values, level, row, column, 0);
    }

    // The relation's references at the level.
    fn references(self, values: &mut [u32], classes: &[u8], plan: Plan)
        requires { Lent self.part.description (length values.old) (length classes.now) }
        ensures { ReferencesTurn self.part.description self.named.part.relation plan self.named.subject self.named.level self.part.relation values.old classes.now values.new classes.now }
    {
        for row in 0..self.part.rows {
            self.reference(values, classes, plan, row);
        }
    }
}

impl Reached {
    // A relation's references at the level, where it refers to the relation that rows are emptied of.
    fn referrer(self, values: &mut [u32], classes: &[u8], plan: Plan, referrer: usize)
        requires lent { Lent self.part.description (length values.old) (length classes.now) × (sound self.part.description ≡ true) }
        requires apart { Apart self.subject self.level × (is_relation self.part.description referrer ≡ true) }
        ensures { ReferrerTurns self.part.description self.part.relation plan self.subject self.level referrer values.old classes.now values.new classes.now }
    {
        let description = self.part.description;
        if description.refers[referrer] as usize != self.part.relation {
            return;
        }
        let part = lay(description, referrer);
        Referrer { named: self, part }.references(values, classes, plan);
    }

    // The references of every relation that refers to it: only relations with higher numbers do.
    pub(crate) fn referrers(self, values: &mut [u32], classes: &[u8], plan: Plan)
        requires lent { Lent self.part.description (length values.old) (length classes.now) × (sound self.part.description ≡ true) }
        requires apart { Apart self.subject self.level }
        ensures { ReferrersTurn self.part.description self.part.relation plan self.subject self.level values.old classes.now values.new classes.now }
    {
        if !plan.gone {
            return;
        }
        let relations = self.part.description.relations as usize;
        for referrer in 1..relations + 1 {
            self.referrer(values, classes, plan, referrer);
        }
    }
}
