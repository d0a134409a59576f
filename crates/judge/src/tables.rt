// The tables that are judged, a relation of them, and a row of it.
ghost use Rattle.keys.specs.Facts.{Ranges, Orders};
ghost use Rattle.judge.specs.Facts.{Laid, Ready, Refers, Spot, InRow};

use keys::areas::Area;
use model::Description;

// The values and classes of the cells, the keys of the rows side by side, the ranges and the order as words, and where each relation starts.
// The description is there for the contracts: code reads of it only what lays out a relation.
#[derive(Clone, Copy)]
pub(crate) struct Tables<'a> {
    pub description: &'a Description,
    pub values: &'a [u32],
    pub classes: &'a [u8],
    pub keys: &'a [u32; 16384],
    pub ranges: &'a [u16],
    pub below: &'a [u16],
    pub above: &'a [u16],
    pub starts: [usize; 9],
    ghost laid: { Laid description.now values.now classes.now keys.now starts },
    ghost ranged: { Ranges description.now 81 ranges.now },
    ghost ordered: { Orders description.now below.now above.now },
}

// A relation, and the one that its foreign key refers to.
#[derive(Clone, Copy)]
pub(crate) struct Relation<'a> {
    pub tables: &'a Tables<'a>,
    pub area: Area,
    pub target: Area,
    ghost ready: { Ready tables.now.description.now tables.now.values.now tables.now.classes.now tables.now.keys.now area },
    ghost refers: { Refers tables.now.description.now tables.now.values.now tables.now.classes.now tables.now.keys.now area target },
}

// A row: its level, its number there, and where its cells start.
#[derive(Clone, Copy)]
pub(crate) struct Row<'a> {
    pub relation: &'a Relation<'a>,
    pub level: usize,
    pub i: usize,
    pub start: usize,
    ghost spot: { Spot relation.now.tables.now.description.now relation.now.area level i start },
}

// A row with a key: its entity is the key and its class.
#[derive(Clone, Copy)]
pub(crate) struct KeyedRow<'a> {
    pub row: Row<'a>,
    pub key: u32,
    pub class: u8,
    ghost in_row: { InRow row.relation.now.tables.now.description.now row.relation.now.tables.now.values.now row.relation.now.tables.now.classes.now row.relation.now.area row.level row.i row.start key class },
}
