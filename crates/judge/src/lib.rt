// The judge of tables: whether a description is sound, whether two buffers are as long as it says, and whether they hold legal tables.
#![tactic(auto)]

mod lenders;
mod references;
mod rows;
mod tables;

ghost use Rattle.std.specs.Prelude.{◌≡◌, true, length};
ghost use Rattle.level.specs.Order.{order_of};
ghost use Rattle.model.specs.Description as descriptions;
ghost use Rattle.model.specs.Buffers.{holding, state_of};
ghost use Rattle.model.specs.Ledger.{lending};
ghost use Rattle.model.specs.Judge as judges;

use crate::tables::Tables;
use keys::{areas, words};
use model::{Description, Fault, Verdict};

// The tables are legal. The order and the ranges are laid out as words and the keys side by side; that no key stands twice at a level is tested
// first, then each row and cell once.
fn legal(description: Description, order: [[bool; 16]; 16], values: &[u32], classes: &[u8]) -> bool
    requires sound_description { (descriptions.sound description ≡ true) × (order ≡ order_of description.labels description.levels) }
    requires values_len { (length values.now ≡ descriptions.total_of description) × (length classes.now ≡ descriptions.total_of description) }
    ensures { result ≡ judges.legal description (state_of description (holding values.now classes.now)) }
{
    let below = words::words(order, false);
    let above = words::words(order, true);
    let ranges = words::ranges(&below, &above, description);
    let starts = areas::starts(description);
    let mut keys = [0u32; 16384];
    keys::fill(values, &mut keys, description, starts);
    if !keys::relations(&mut keys, description, starts) {
        return false;
    }
    let tables = Tables {
        description: &description,
        values,
        classes,
        keys: &keys,
        ranges: &ranges,
        below: &below,
        above: &above,
        starts,
    };
    tables.relations()
}

// What is to be said of a description and two buffers, where the order is laid out: the first of what is wrong.
pub fn verdict(
    description: Description,
    order: [[bool; 16]; 16],
    values: &[u32],
    classes: &[u8],
) -> Verdict
    requires { order ≡ order_of description.labels description.levels }
    ensures { result ≡ judges.judge description (lending (holding values.now classes.now)) }
{
    if !describe::ordered(description, order) {
        return Err(Fault::Description);
    }
    let total = describe::total(description);
    if values.len() != total {
        return Err(Fault::Length);
    }
    if classes.len() != total {
        return Err(Fault::Length);
    }
    if !legal(description, order, values, classes) {
        return Err(Fault::Illegal);
    }
    Ok(())
}

// The same for any description: the order is laid out first.
pub fn judge(description: Description, values: &[u32], classes: &[u8]) -> Verdict
    ensures { result ≡ judges.judge description (lending (holding values.now classes.now)) }
{
    let levels = usize::from(description.levels);
    let labels = description.labels;
    let order = level::order(labels, levels);
    verdict(description, order, values, classes)
}
