// What is laid out of a description and its tables before the rows are judged. Here: the keys of the rows, gathered side by side, a search among
// them, and that none stands twice.
#![tactic(auto)]

pub mod areas;
pub mod words;

ghost use Rattle.std.specs.Prelude.{◌≡◌, true, ◌+◌, ◌*◌, ◌<◌, ◌≤◌, length};
ghost use Rattle.bounded.specs.Bounded.{first_below, some_below, all_below};
ghost use Rattle.model.specs.Description.{total_of, sound};
ghost use Rattle.keys.specs.Facts.{has_key, Once, first_of, slot_of, Noted, Kept, Gathered, Starting, Keyed, distinct_keys};

use crate::areas::Area;
use model::Description;

// Where the row of a key is noted, for the keys that stand from `from` on. A note only saves a search: two keys may have one place. Notes are
// numbers behind the keys in one buffer, 0 for none, as `Noted` and `Kept` have it.
fn slot(from: usize, key: u32) -> usize
    requires { from ≤ 8192 }
    ensures { result ≡ slot_of from key }
{
    8192 + (17 * from + key as usize) % 8192
}

// The row of a key that stands at most once among `rows` keys. The loop has no branch on a key, so that it is vectorised: it adds up one more than
// the number of the row that has the key, and 0 is none.
fn search(keys: &[u32; 16384], from: usize, rows: usize, key: u32) -> Option<usize>
    requires rows_in_bounds { (from + rows ≤ 16384) × (rows ≤ 64) }
    requires once { Once keys.now from rows key }
    ensures { result ≡ some_below rows (first_below rows (has_key keys.now from key)) }
{
    let mut found = 0u32;
    for i in 0..rows {
        found += if keys[from + i] == key {
            i as u32 + 1
        } else {
            0
        };
    }
    if found == 0 {
        return None;
    }
    Some(found as usize - 1)
}

// The same row: the one that is noted where it has the key, else the one that is found. A note is 64 more than the row, and 0 is no note.
pub fn find(keys: &[u32; 16384], from: usize, rows: usize, key: u32) -> Option<usize>
    requires rows_bound { (from + rows ≤ 8192) × (rows ≤ 64) }
    requires once { Once keys.now from rows key }
    ensures { result ≡ some_below rows (first_below rows (has_key keys.now from key)) }
{
    let place = slot(from, key);
    let i = (keys[place] % 64) as usize;
    if i < rows && keys[from + i] == key {
        return Some(i);
    }
    search(keys, from, rows, key)
}

// The key of row `i` is 0, or no row before has it. A key whose place has no note is new, and is noted.
fn fresh(keys: &mut [u32; 16384], from: usize, rows: usize, i: usize) -> bool
    requires rows_bound { (from + rows ≤ 8192) × (rows ≤ 64) × (i < rows) }
    requires firsts { (all_below i (first_of keys.old from) ≡ true) × Noted keys.old from i }
    ensures { (result ≡ first_of keys.old from i) × Kept keys.old keys.new × Noted keys.new from (i + 1) }
{
    let key = keys[from + i];
    if key == 0 {
        return true;
    }
    let place = slot(from, key);
    if keys[place] == 0 {
        keys[place] = 64 + i as u32;
        return true;
    }
    search(keys, from, i, key).is_none()
}

// No key stands twice among the keys of a level.
fn distinct(keys: &mut [u32; 16384], from: usize, rows: usize) -> bool
    requires { (from + rows ≤ 8192) × (rows ≤ 64) }
    ensures { (result ≡ all_below rows (first_of keys.old from)) × Kept keys.old keys.new }
{
    for i in 0..rows {
        if !fresh(keys, from, rows, i) {
            return false;
        }
    }
    true
}

// No key stands twice at a level of a relation.
fn levels(keys: &mut [u32; 16384], area: Area) -> bool
    requires { (area.start + area.levels * area.rows ≤ 8192) × (area.rows ≤ 64) × (area.levels ≤ 16) }
    ensures { (result ≡ all_below area.levels (λ l. all_below area.rows (first_of keys.old (area.start + l * area.rows)))) × Kept keys.old keys.new }
{
    for l in 0..area.levels {
        let from = area.start + l * area.rows;
        if !distinct(keys, from, area.rows) {
            return false;
        }
    }
    true
}

// The keys of a relation, from the first cell of each of its rows.
fn gather(values: &[u32], keys: &mut [u32; 16384], area: Area)
    requires rows_in_bounds { (area.start + area.levels * area.rows ≤ 16384) × (area.start + area.levels * area.rows * area.cols ≤ length values.now) × (0 < area.cols) }
    requires values_len { length values.now ≤ 8192 }
    ensures { Gathered values.now keys.old keys.new area.start (area.levels * area.rows) area.cols }
{
    for i in 0..area.levels * area.rows {
        let p = area.start + i * area.cols;
        keys[area.start + i] = values[p];
    }
}

// The keys of every relation, each from where the relation's cells start in `values`.
pub fn fill(values: &[u32], keys: &mut [u32; 16384], d: Description, starts: [usize; 9])
    requires sound_description { (sound d ≡ true) × Starting d starts }
    requires values_len { length values.now ≡ total_of d }
    ensures { Keyed d values.now d.relations keys.new }
{
    for r in 0..usize::from(d.relations) {
        let area = Area::laid(d, starts, r + 1);
        gather(values, keys, area);
    }
}

// No key stands twice at a level of any relation.
pub fn relations(keys: &mut [u32; 16384], d: Description, starts: [usize; 9]) -> bool
    requires sound_description { (sound d ≡ true) × Starting d starts }
    ensures { (result ≡ distinct_keys d keys.old) × Kept keys.old keys.new }
{
    for r in 0..usize::from(d.relations) {
        let area = Area::laid(d, starts, r + 1);
        if !levels(keys, area) {
            return false;
        }
    }
    true
}
