// The records that describe the tables: the labels, and a relation.
ghost use Rattle.std.specs.Prelude.{◌≡◌, ◌+◌, ◌*◌, ◌≤◌};
ghost use Rattle.bounded.specs.Lists.{write_at};
ghost use Rattle.records.specs.Descriptions.{nothing as nothing_of, is_labels, label_count, label_at, labels_of, labelled, is_related, ends as ends_of, with_relation, related};

use crate::bytes::pair;
use model::Description;

// The description before any record.
#[tactic(auto, unfolding(crate::specs::Descriptions::nothing))]
pub fn nothing() -> Description
    ensures { result ≡ nothing_of }
{
    Description {
        levels: 0,
        labels: [0; 16],
        relations: 0,
        columns: [0; 9],
        rows: [0; 9],
        foreign: [0; 9],
        refers: [0; 9],
        low: [0; 81],
        high: [0; 81],
    }
}

// ---- labels

// Whether a record holds labels and nothing else.
#[tactic(auto, unfolding(crate::specs::Descriptions::is_labels))]
pub fn is_labels(bytes: &[u8]) -> bool
    ensures { result ≡ is_labels bytes.now }
{
    bytes.len() % 2 == 0
}

// How many labels a record holds.
#[tactic(auto, unfolding(crate::specs::Descriptions::label_count))]
fn label_count(bytes: &[u8]) -> usize
    ensures { (result ≡ label_count bytes.now) × (result ≤ 512) }
{
    (bytes.len().saturating_sub(4) / 2).min(512)
}

// The label of a level, 0 where the record holds none.
#[tactic(auto, unfolding(crate::specs::Descriptions::label_at))]
fn label(bytes: &[u8], level: usize) -> u16
    ensures { result ≡ label_at bytes.now level }
{
    if level < label_count(bytes) {
        pair(bytes, 4 + 2 * level)
    } else {
        0
    }
}

// The labels of sixteen levels.
fn sixteen(bytes: &[u8]) -> [u16; 16]
    ensures { result ≡ labels_of bytes.now }
{
    let mut labels = [0u16; 16];
    for level in 0..16 {
        labels[level] = label(bytes, level);
    }
    labels
}

// The description with these labels.
#[tactic(auto, unfolding(crate::specs::Descriptions::labelled))]
pub fn labels(bytes: &[u8], description: Description) -> Description
    ensures { result ≡ labelled description bytes.now }
{
    Description {
        levels: label_count(bytes) as u16,
        labels: sixteen(bytes),
        ..description
    }
}

// ---- relations

// Whether a record is as long as its count of columns asks.
#[tactic(auto, unfolding(crate::specs::Descriptions::is_related))]
pub fn is_relation(bytes: &[u8]) -> bool
    ensures { result ≡ is_related bytes.now }
{
    bytes.len() == 12 + 4 * pair(bytes, 4) as usize
}

// The ends of the columns' ranges, from a place of the record on, as far as the description holds them.
fn ends(bytes: &[u8], at: usize, relation: usize, before: [u16; 81]) -> [u16; 81]
    requires { (at ≤ 100) × (relation ≤ 8) }
    ensures { result ≡ write_at (9 * relation + 1) (ends_of bytes.now at) before }
{
    let columns = pair(bytes, 4).min(8) as usize;
    let mut next = before;
    for k in 0..columns {
        next[9 * relation + 1 + k] = pair(bytes, at + 4 * k);
    }
    next
}

// The description with one relation more.
#[tactic(auto, unfolding(crate::specs::Descriptions::with_relation))]
fn with_relation(bytes: &[u8], description: Description, relation: usize) -> Description
    requires { relation ≤ 8 }
    ensures { result ≡ with_relation description relation bytes.now }
{
    let mut next = description;
    next.relations = relation as u16;
    next.columns[relation] = pair(bytes, 4);
    next.rows[relation] = pair(bytes, 6);
    next.foreign[relation] = pair(bytes, 8);
    next.refers[relation] = pair(bytes, 10);
    next.low = ends(bytes, 12, relation, description.low);
    next.high = ends(bytes, 14, relation, description.high);
    next
}

// The description with this relation, or with too many: nine stand for any number over eight, as the definition `overfull` has it.
#[tactic(auto, unfolding(crate::specs::Descriptions::related, crate::specs::Descriptions::overfull))]
pub fn relation(bytes: &[u8], description: Description) -> Description
    ensures { result ≡ related description bytes.now }
{
    if description.relations < 8 {
        with_relation(bytes, description, description.relations as usize + 1)
    } else {
        Description {
            relations: 9,
            ..description
        }
    }
}
