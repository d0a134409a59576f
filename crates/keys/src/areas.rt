// Where the cells of each relation stand.
ghost use Rattle.std.specs.Prelude.{◌≡◌, true, ◌+◌, ◌*◌, ◌<◌, ◌≤◌};
ghost use Rattle.model.specs.Description.{sound};
ghost use Rattle.keys.specs.Facts.{Starting, area_of};

use describe::size;
use model::Description;

// A relation: its number, where its cells and its keys start, how many levels there are, how many rows each of them has and how many columns, and
// the column of its foreign key, counted from 0.
#[derive(Clone, Copy)]
pub struct Area {
    pub relation: usize,
    pub start: usize,
    pub levels: usize,
    pub rows: usize,
    pub cols: usize,
    pub foreign: Option<usize>,
}

impl Area {
    // The area of a relation; of no relation it says nothing.
    pub fn laid(d: Description, starts: [usize; 9], relation: usize) -> Area
        requires { relation ≤ 8 }
        ensures { result ≡ area_of d starts relation }
    {
        Area {
            relation,
            start: starts[relation],
            levels: usize::from(d.levels),
            rows: usize::from(d.rows[relation]),
            cols: usize::from(d.columns[relation]),
            foreign: usize::from(d.foreign[relation]).checked_sub(1),
        }
    }
}

// Where row `i` of a level starts.
pub fn at(area: Area, level: usize, i: usize) -> usize
    requires { (area.start + (level * area.rows + i) * area.cols ≤ 8192) × (0 < area.cols) }
    ensures { result ≡ area.start + (level * area.rows + i) * area.cols }
{
    area.start + (level * area.rows + i) * area.cols
}

// Where the cells of each relation start.
pub fn starts(d: Description) -> [usize; 9]
    requires { sound d ≡ true }
    ensures { Starting d result }
{
    let mut starts = [0usize; 9];
    let mut sum = 0;
    for r in 0..usize::from(d.relations) {
        sum += size(d, r);
        starts[r + 1] = sum;
    }
    starts
}
