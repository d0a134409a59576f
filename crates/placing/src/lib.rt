// A row of the tables as they are handed in, placed in the lowest empty row.
#![tactic(auto)]

ghost use Rattle.std.specs.Prelude.{◌≡◌, true, ◌&&◌, ◌≤◌};
ghost use Rattle.model.specs.Description.{sound, is_level, is_relation};
ghost use Rattle.model.specs.Buffers.{holding, fitting};
ghost use Rattle.change.specs.Facts.{Filled};
ghost use Rattle.placing.specs.Placing.{Places, row_read, small_classes};

use cells::layout::lay;
use model::Description;
use records::bytes::{pair, quad};

// The description is sound, and both buffers are as long as it says.
fn fits(values: &[u32], classes: &[u8], description: Description) -> bool
    ensures { result ≡ (sound description && fitting description (holding values.now classes.now)) }
{
    if !describe::sound(description) {
        return false;
    }
    let total = describe::total(description);
    if values.len() != total {
        return false;
    }
    classes.len() == total
}

// There is such a relation and such a level.
fn there(description: Description, relation: usize, level: usize) -> bool
    ensures { result ≡ (is_relation description relation && is_level description level) }
{
    if relation < 1 {
        return false;
    }
    if relation > description.relations as usize {
        return false;
    }
    level < description.levels as usize
}

// No class is over 255.
fn small(bytes: &[u8], columns: usize) -> bool
    requires { columns ≤ 8 }
    ensures { result ≡ small_classes columns bytes.now }
{
    for k in 0..columns {
        if pair(bytes, 12 + 6 * k) > 255 {
            return false;
        }
    }
    true
}

// The row's values, by column.
fn news(bytes: &[u8], columns: usize) -> [u32; 9]
    requires { columns ≤ 8 }
    ensures { Filled columns (λ k. (row_read bytes.now k).value) result }
{
    let mut news = [0u32; 9];
    for k in 0..columns {
        news[k + 1] = quad(bytes, 8 + 6 * k);
    }
    news
}

// Its classes, by column. One function under both would take how a number is read as a parameter, and be no plainer.
fn owners(bytes: &[u8], columns: usize) -> [u8; 9]
    requires columns_bound { columns ≤ 8 }
    requires classes_small { small_classes columns bytes.now ≡ true }
    ensures { Filled columns (λ k. (row_read bytes.now k).class) result }
{
    let mut owners = [255u8; 9];
    for k in 0..columns {
        owners[k + 1] = pair(bytes, 12 + 6 * k) as u8;
    }
    owners
}

// Whether the record's row could be placed; if so it is.
pub fn place(bytes: &[u8], values: &mut [u32], classes: &mut [u8], description: Description) -> bool
    ensures { Places description bytes.now (holding values.old classes.old) (holding values.new classes.new) result }
{
    let relation = pair(bytes, 4) as usize;
    let level = pair(bytes, 6) as usize;
    if !fits(values, classes, description) {
        return false;
    }
    if !there(description, relation, level) {
        return false;
    }
    let part = lay(description, relation);
    let columns = part.columns;
    if bytes.len() != 8 + 6 * columns {
        return false;
    }
    if !small(bytes, columns) {
        return false;
    }
    let Some(row) = part.lowest(values, classes, level) else {
        return false;
    };
    let news = news(bytes, columns);
    let owners = owners(bytes, columns);
    part.store(values, classes, level, row, news, owners);
    true
}
