// When a description is sound. It may be damaged: nothing is read of it before it is known to be there.
#![tactic(auto)]

ghost use Rattle.std.specs.Prelude.{◌≡◌, suc, ◌*◌, ◌≤◌, leb, length, get_or};
ghost use Rattle.std.specs.List.{list_all};
ghost use Rattle.bounded.specs.Bounded.{all_below};
ghost use Rattle.level.specs.Order.{order_of};
ghost use Rattle.model.specs.Description as descriptions;
ghost use Rattle.model.specs.Description.{column_count, size_of, total_of, labels_sound, foreign_sound, relation_sound, between as between_of, distinct_below};
ghost use Rattle.describe.specs.Facts.{Described, ranges_sound};

use model::Description;

// `n` is from `low` to `high`.
#[tactic(auto, using(std::proofs::lemmas::Bool::Decides::nat_tests), unfolding(model::specs::Description::between))]
fn between(low: u16, high: u16, n: u16) -> bool
    ensures { result ≡ between_of low high n }
{
    low <= n && n <= high
}

// Each label is at most 4095.
fn small(labels: &[u16]) -> bool
    ensures { result ≡ list_all (λ label. leb label 4095) labels.now }
{
    labels.iter().all(|label| *label <= 4095)
}

// No two levels have one label.
fn distinct(labels: &[u16]) -> bool
    ensures { result ≡ distinct_below (length labels.now) (λ l. get_or labels.now l 0) }
{
    for i in 0..labels.len() {
        if labels[..i].contains(&labels[i]) {
            return false;
        }
    }
    true
}

// The labels are sound.
fn labels(d: &Description) -> bool
    requires { d.now.levels ≤ 16 }
    ensures { result ≡ labels_sound d.now }
{
    let labels = &d.labels[..d.levels as usize];
    small(labels) && distinct(labels)
}

// A relation of a description, and the order of the description's levels.
#[derive(Clone, Copy)]
struct Relation<'a> {
    d: &'a Description,
    order: &'a [[bool; 16]; 16],
    number: usize,
    ghost described: { Described d.now order.now number },
}

impl Relation<'_> {
    // The range of each column is one: its end dominates its start.
    fn ranged(&self) -> bool
        requires { column_count self.now.d.now self.now.number ≤ 8 }
        ensures { result ≡ ranges_sound self.now.d.now self.now.number }
    {
        let d = self.d;
        let column = 9 * self.number + 1;
        for k in 0..d.columns[self.number] as usize {
            let high = d.high[column + k] as usize;
            let low = d.low[column + k] as usize;
            if !level::over(*self.order, high, low) {
                return false;
            }
        }
        true
    }

    // The foreign key is sound.
    fn foreign(&self) -> bool
        ensures { result ≡ foreign_sound self.now.d.now self.now.number }
    {
        let column = self.d.foreign[self.number];
        let refers = self.d.refers[self.number] as usize;
        if column == 0 {
            return refers == 0;
        }
        between(2, self.d.columns[self.number], column) && refers != 0 && refers < self.number
    }

    // The relation is sound.
    fn sound(&self) -> bool
        ensures { result ≡ relation_sound self.now.d.now self.now.number }
    {
        between(1, 8, self.d.columns[self.number])
            && between(1, 64, self.d.rows[self.number])
            && self.ranged()
            && self.foreign()
    }
}

// Each relation is sound.
fn relations(d: &Description, order: &[[bool; 16]; 16]) -> bool
    requires { (order.now ≡ order_of d.now.labels d.now.levels) × (d.now.levels ≤ 16) × (d.now.relations ≤ 8) }
    ensures { result ≡ all_below d.now.relations (λ r. relation_sound d.now (suc r)) }
{
    for r in 0..d.relations as usize {
        let relation = Relation {
            d,
            order,
            number: r + 1,
        };
        if !relation.sound() {
            return false;
        }
    }
    true
}

// How many cells a relation has; one that doesn't exist has none.
pub fn size(d: Description, relation: usize) -> usize
    requires { relation ≤ 8 }
    ensures { (result ≡ size_of d relation) × (result ≤ 65535 * 65535 * 65535) }
{
    if relation == 0 || relation > d.relations as usize {
        return 0;
    }
    let levels = d.levels as usize;
    let rows = d.rows[relation] as usize;
    let cols = d.columns[relation] as usize;
    levels * rows * cols
}

// How many cells there are. A description has numbers of eight relations, so none behind them has cells.
pub fn total(d: Description) -> usize
    ensures { result ≡ total_of d }
{
    let mut sum = 0;
    for r in 0..9 {
        sum += size(d, r);
    }
    sum
}

// The description is sound; `order` is the order of its levels.
#[tactic(auto, unfolding(model::specs::Description::sound))]
pub fn ordered(d: Description, order: [[bool; 16]; 16]) -> bool
    requires { order ≡ order_of d.labels d.levels }
    ensures { result ≡ descriptions.sound d }
{
    between(1, 16, d.levels)
        && labels(&d)
        && between(1, 8, d.relations)
        && relations(&d, &order)
        && total(d) <= 8192
}

// The description is sound.
pub fn sound(description: Description) -> bool
    ensures { result ≡ descriptions.sound description }
{
    let order = level::order(description.labels, description.levels as usize);
    ordered(description, order)
}
