// The rows of every relation and level.
ghost use Rattle.std.specs.Prelude.{◌≡◌, suc, ◌<◌};
ghost use Rattle.bounded.specs.Bounded.{all_below};
ghost use Rattle.judge.specs.Facts.{relation_right, tables_right};
ghost use Rattle.judge.specs.Views.{description_of, keyed_of, rows_at, tables_of};

use super::tables::{KeyedRow, Relation, Row, Tables};
use keys::areas::{Area, at};

impl KeyedRow<'_> {
    // A row with a key is right.
    fn keyed(&self) -> bool
        ensures { result ≡ keyed_of self.now }
    {
        if 16 <= self.class {
            return false;
        }
        let tables = self.row.relation.tables;
        let word = tables.below[self.row.level] & tables.above[self.class as usize];
        self.cells(word) && self.row.reference()
    }
}

impl Relation<'_> {
    // Row `i` of a level is right.
    fn row(&self, level: usize, i: usize) -> bool
        requires { (level < (description_of self.now).levels) × (i < self.now.area.rows) }
        ensures { result ≡ rows_at self.now level i }
    {
        let start = at(self.area, level, i);
        let row = Row {
            relation: self,
            level,
            i,
            start,
        };
        let key = self.tables.values[start];
        if key == 0 {
            return row.empty();
        }
        let class = self.tables.classes[start];
        KeyedRow { row, key, class }.keyed()
    }

    // The rows of a level are right.
    fn rows(&self, level: usize) -> bool
        requires { level < (description_of self.now).levels }
        ensures { result ≡ all_below self.now.area.rows (rows_at self.now level) }
    {
        for i in 0..self.area.rows {
            if !self.row(level, i) {
                return false;
            }
        }
        true
    }

    // Those of every level are right.
    fn levels(&self) -> bool
        ensures { result ≡ all_below self.now.area.levels (λ l. all_below self.now.area.rows (rows_at self.now l)) }
    {
        for level in 0..self.area.levels {
            if !self.rows(level) {
                return false;
            }
        }
        true
    }
}

impl Tables<'_> {
    // The rows of relation r + 1 are right.
    fn relation(&self, r: usize) -> bool
        requires { r < self.now.description.now.relations }
        ensures { result ≡ relation_right self.now.description.now (tables_of self.now) (suc r) }
    {
        let description = *self.description;
        let refers = usize::from(description.refers[r + 1]);
        let area = Area::laid(description, self.starts, r + 1);
        let target = Area::laid(description, self.starts, refers);
        Relation {
            tables: self,
            area,
            target,
        }
        .levels()
    }

    // Those of every relation are right.
    pub(crate) fn relations(&self) -> bool
        ensures { result ≡ tables_right self.now.description.now (tables_of self.now) }
    {
        for r in 0..usize::from(self.description.relations) {
            if !self.relation(r) {
                return false;
            }
        }
        true
    }
}
