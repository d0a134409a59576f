// Where the cells of a relation stand in both buffers.
ghost use Rattle.std.specs.Prelude.{◌≡◌, true};
ghost use Rattle.model.specs.Description.{sound, is_relation, row_count, column_count, size_of, start_of};
ghost use Rattle.cells.specs.Laid.{Laid, Count};

use model::Description;

// A relation of a description: where its cells begin, and how many rows and columns it has. The description beside these numbers is never read
// where cells are: it says in the contracts what they are.
#[derive(Clone, Copy)]
pub struct Part {
    pub description: Description,
    pub relation: usize,
    pub start: usize,
    pub rows: usize,
    pub columns: usize,
    pub ghost laid: { Laid description relation start rows columns },
}

// How many rows a relation has at each level.
fn rows(description: Description, relation: usize) -> usize
    requires sound_description { sound description ≡ true }
    requires known_relation { is_relation description relation ≡ true }
    ensures { Count (row_count description relation) 64 result }
{
    description.rows[relation] as usize
}

// How many columns a relation has.
fn columns(description: Description, relation: usize) -> usize
    requires sound_description { sound description ≡ true }
    requires known_relation { is_relation description relation ≡ true }
    ensures { Count (column_count description relation) 8 result }
{
    description.columns[relation] as usize
}

// How many cells a relation has.
fn size(description: Description, relation: usize) -> usize
    requires sound_description { sound description ≡ true }
    requires known_relation { is_relation description relation ≡ true }
    ensures { Count (size_of description relation) 8192 result }
{
    let levels = description.levels as usize;
    levels * rows(description, relation) * columns(description, relation)
}

// Where a relation's cells begin: behind those of the relations before it.
fn start(description: Description, relation: usize) -> usize
    requires sound_description { sound description ≡ true }
    requires known_relation { is_relation description relation ≡ true }
    ensures { result ≡ start_of description relation }
{
    let mut start = 0;
    for before in 1..relation {
        start += size(description, before);
    }
    start
}

// The numbers of a relation, laid out once.
pub fn lay(description: Description, relation: usize) -> Part
    requires sound_description { sound description ≡ true }
    requires known_relation { is_relation description relation ≡ true }
    ensures described { result.description ≡ description }
    ensures of_relation { result.relation ≡ relation }
{
    Part {
        description,
        relation,
        start: start(description, relation),
        rows: rows(description, relation),
        columns: columns(description, relation),
    }
}
