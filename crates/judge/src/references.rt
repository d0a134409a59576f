// The references of rows.
ghost use Rattle.std.specs.Prelude.{◌≡◌, ◌≢◌, None};
ghost use Rattle.bounded.specs.Bounded.{some_below};
ghost use Rattle.model.specs.Tables.{cell, place};
ghost use Rattle.judge.specs.Facts.{names_right, Asked};
ghost use Rattle.judge.specs.Views.{description_of, rows_of, reference_of};

use super::tables::{Relation, Row};
use keys::areas::at;
use keys::find;

impl Relation<'_> {
    // The row with a key at a level of the relation that is referred to.
    fn sought(&self, key: u32, level: usize) -> Option<usize>
        requires refers { self.now.area.foreign ≢ None }
        requires asked { Asked (description_of self.now) level key }
        ensures { result ≡ some_below self.now.target.rows (place self.now.target.rows (rows_of self.now self.now.target.relation level) key) }
    {
        let rows = self.target.rows;
        let from = self.target.start + level * rows;
        find(self.tables.keys, from, rows, key)
    }

    // A reference (`v`, `c`) that is not null, of a row at a level, names a row.
    fn names(&self, level: usize, v: u32, c: u8) -> bool
        requires refers { self.now.area.foreign ≢ None }
        requires asked { Asked (description_of self.now) level v }
        ensures { result ≡ names_right (description_of self.now) (rows_of self.now) self.now.target.relation level (cell v c) }
    {
        let e = c as usize;
        if self.target.levels <= e {
            return false;
        }
        let Some(i) = self.sought(v, level) else {
            return false;
        };
        if e == level {
            return true;
        }
        let Some(j) = self.sought(v, e) else {
            return false;
        };
        let classes = self.tables.classes;
        let p = at(self.target, e, j);
        let q = at(self.target, level, i);
        classes[p] == classes[q]
    }
}

impl Row<'_> {
    // The reference of a row with a key is right.
    pub(crate) fn reference(&self) -> bool
        ensures { result ≡ reference_of self.now }
    {
        let relation = self.relation;
        let Some(k) = relation.area.foreign else {
            return true;
        };
        let place = self.start + k;
        let v = relation.tables.values[place];
        if v == 0 {
            return true;
        }
        let c = relation.tables.classes[place];
        relation.names(self.level, v, c)
    }
}
