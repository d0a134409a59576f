// The register's types: what is handed in, and what is answered.
#![tactic(auto)]

// What the tables are like. It is public, and may be damaged: a count may be larger than its array.
// Relations and columns are numbered from 1, levels and rows from 0; what stands at place 0 of an array by relation is not read.
// Arrays by relation and not relations in an array, and 0 for no foreign key: the definitions of the model read them so (`of_relation`,
// `foreign_sound`).
#[derive(Clone, Copy)]
pub struct Description {
    pub levels: u16,
    // by level
    pub labels: [u16; 16],
    pub relations: u16,
    // by relation: how many columns, and how many rows for each level
    pub columns: [u16; 9],
    pub rows: [u16; 9],
    // by relation: the foreign key column and the relation that it refers to; 0 and 0 for none
    pub foreign: [u16; 9],
    pub refers: [u16; 9],
    // by relation and column, at 9 * relation + column: the range L to H
    pub low: [u16; 81],
    pub high: [u16; 81],
}

// What a subject asks for. Its lists come beside it, flat: INSERT and UPDATE have pairs of column and value, UPLEVEL pairs of column and
// FROM level, SELECT the AT levels; DELETE, UPDATE and SELECT have conditions, four numbers each.
#[derive(Clone, Copy)]
pub enum What {
    Insert,
    Delete,
    Update,
    // the key class is 255 where none is given, as the definitions of the model read it (`entity_of`)
    Uplevel { key: u32, class: u16 },
    Select,
}

// A statement of a subject at a level, about a relation.
#[derive(Clone, Copy)]
pub struct Statement {
    pub level: u16,
    pub relation: u16,
    pub what: What,
}

// Why a call is refused: 01's numbers 1 to 14, in their order.
#[derive(Clone, Copy)]
pub enum Fault {
    Description = 1,
    Length,
    Illegal,
    Malformed,
    Unseen,
    Range,
    Absent,
    Several,
    Taken,
    KeyClass,
    Reference,
    Referred,
    Full,
    Short,
}

// What one call is answered: the count of what was done, or why it is refused.
pub type Answer = Result<u32, Fault>;

// What the judge of tables says: legal, or the first of what is wrong.
pub type Verdict = Result<(), Fault>;
