// The cells of a row.
ghost use Rattle.std.specs.Prelude.{◌≡◌, suc, ◌<◌};
ghost use Rattle.bounded.specs.Bounded.{all_below};
ghost use Rattle.model.specs.Tables.{cell, nocell, same, empty_row};
ghost use Rattle.judge.specs.Views.{description_of, row_of, cell_of, lender_at, lent_at, Knows, FitsColumn, FitsRow};

use super::tables::{KeyedRow, Row};
use keys::areas::at;
use keys::find;
use keys::words::has;

// What is known of the levels that were looked up for a row: where the entity's row there starts, or that it has none.
#[derive(Clone, Copy)]
pub(crate) struct Lenders {
    found: [Option<u16>; 16],
    absent: [bool; 16],
}

impl KeyedRow<'_> {
    // Where the row of the entity at a level starts.
    fn lender(&self, level: usize) -> Option<u16>
        requires { level < (description_of self.now.row.relation.now).levels }
        ensures { result ≡ lender_at self.now level }
    {
        let relation = self.row.relation;
        let rows = relation.area.rows;
        let from = relation.area.start + level * rows;
        let i = find(relation.tables.keys, from, rows, self.key)?;
        let p = at(relation.area, level, i);
        if relation.tables.classes[p] != self.class {
            return None;
        }
        Some(p as u16)
    }

    // The same, looked up once for a row and level.
    fn cached(&self, cache: &mut Lenders, level: usize) -> Option<u16>
        requires level { level < (description_of self.now.row.relation.now).levels }
        requires known { Knows self.now cache.old }
        ensures { (result ≡ lender_at self.now level) × Knows self.now cache.new }
    {
        if let Some(known) = cache.found[level] {
            return Some(known);
        }
        if cache.absent[level] {
            return None;
        }
        let p = self.lender(level);
        cache.found[level] = p;
        cache.absent[level] = p.is_none();
        p
    }

    // The cell (`v`, `c`) of column k + 1 is what the row that starts at `p` lends.
    fn lent(&self, p: Option<u16>, k: usize, v: u32, c: u8) -> bool
        requires level { c < (description_of self.now.row.relation.now).levels }
        requires from_lender { (p ≡ lender_at self.now c) × (k < self.now.row.relation.now.area.cols) }
        ensures { result ≡ same (cell v c) (lent_at self.now k c) }
    {
        let Some(p) = p else {
            return v == 0;
        };
        let tables = self.row.relation.tables;
        let place = p as usize + k;
        if tables.classes[place] != c {
            return v == 0;
        }
        v == tables.values[place]
    }

    // Column k + 1 of a row with a key is right.
    fn cell(&self, cache: &mut Lenders, k: usize, word: u16) -> bool
        requires column { k < self.now.row.relation.now.area.cols }
        requires fitting { FitsColumn self.now k word }
        requires known { Knows self.now cache.old }
        ensures { (result ≡ cell_of self.now.row k) × Knows self.now cache.new }
    {
        let tables = self.row.relation.tables;
        let place = self.row.start + k;
        let c = tables.classes[place];
        let v = tables.values[place];
        if c == 255 {
            return v == 0;
        }
        if !has(word, c) {
            return false;
        }
        let e = c as usize;
        if e == self.row.level {
            return true;
        }
        let p = self.cached(cache, e);
        self.lent(p, k, v, c)
    }

    // Every column of a row with a key is right, where `word` has the classes that fit its level and its key.
    pub(crate) fn cells(&self, word: u16) -> bool
        requires { FitsRow self.now word }
        ensures { result ≡ all_below self.now.row.relation.now.area.cols (cell_of self.now.row) }
    {
        let relation = self.row.relation;
        let column = 9 * relation.area.relation + 1;
        let mut cache = Lenders {
            found: [None; 16],
            absent: [false; 16],
        };
        for k in 0..relation.area.cols {
            let fit = relation.tables.ranges[column + k] & word;
            if !self.cell(&mut cache, k, fit) {
                return false;
            }
        }
        true
    }
}

impl Row<'_> {
    // The cell of column k + 1 is empty.
    fn blank(&self, k: usize) -> bool
        requires { k < self.now.relation.now.area.cols }
        ensures { result ≡ same (row_of self.now (suc k)) nocell }
    {
        let tables = self.relation.tables;
        let place = self.start + k;
        tables.values[place] == 0 && tables.classes[place] == 255
    }

    // Every column is empty.
    pub(crate) fn empty(&self) -> bool
        ensures { result ≡ empty_row (description_of self.now.relation.now) self.now.relation.now.area.relation (row_of self.now) }
    {
        for k in 0..self.relation.area.cols {
            if !self.blank(k) {
                return false;
            }
        }
        true
    }
}
