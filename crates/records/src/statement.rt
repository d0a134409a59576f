// A record read to a statement, its list and its conditions.
ghost use Rattle.std.specs.Prelude.{◌≡◌, ◌+◌, ◌≤◌, length};
ghost use Rattle.bounded.specs.Lists.{write_at};
ghost use Rattle.records.specs.Kinds.{numbers};
ghost use Rattle.records.specs.Statements.{what_read, end_of, entry_at, numbers_of};
ghost use Rattle.records.specs.Facts.{Filled, Reading};

use crate::Read;
use crate::bytes::{pair, quad};
use crate::kinds::{Entry, form_of};
use crate::whole::is_whole;
use model::{Statement, What};

// ---- what its kind and its counts say

// What the statement asks for, none where the kind is no statement's.
#[tactic(auto, unfolding(crate::specs::Statements::what_read, crate::specs::Statements::what_of, crate::specs::Kinds::is_kind, model::specs::Description::between))]
fn what(bytes: &[u8]) -> Option<What>
    ensures { result ≡ what_read bytes.now }
{
    match pair(bytes, 2) {
        16 => Some(What::Insert),
        17 => Some(What::Delete),
        18 => Some(What::Update),
        19 => Some(What::Uplevel {
            key: quad(bytes, 8),
            class: pair(bytes, 12),
        }),
        20 => Some(What::Select),
        _ => None,
    }
}

// Where a list ends that begins at a place. The widths are unfolded for the wrong programs that give one kind of entry an arm of its own.
#[tactic(auto, unfolding(crate::specs::Statements::end_of, crate::specs::Kinds::width))]
fn list_end(bytes: &[u8], entry: Option<Entry>, at: usize) -> usize
    requires { at ≤ 1000000 }
    ensures { (result ≡ end_of bytes.now entry at) × (result ≤ at + 655352) }
{
    match entry {
        None => at,
        Some(entry) => at + 2 + entry.width() * pair(bytes, at) as usize,
    }
}

// ---- its lists

// The numbers of an entry that begins at a place, at the front of a list.
#[tactic(auto, unfolding(crate::specs::Statements::entry_at, crate::specs::Kinds::numbers))]
fn put(bytes: &[u8], list: &mut [u32], entry: Entry, at: usize)
    requires { (at ≤ 2000) × (numbers entry ≤ length list.old) }
    ensures { list.new ≡ write_at 0 (entry_at bytes.now entry at) list.old }
{
    list[0] = pair(bytes, at) as u32;
    match entry {
        Entry::Level => {}
        Entry::Borrow => list[1] = pair(bytes, at + 2) as u32,
        Entry::Cell => list[1] = quad(bytes, at + 2),
        Entry::Condition => {
            list[1] = pair(bytes, at + 2) as u32;
            list[2] = pair(bytes, at + 4) as u32;
            list[3] = quad(bytes, at + 6);
        }
    }
}

// The numbers of a list that begins at a place; how many they are.
fn fill(bytes: &[u8], list: &mut [u32], entry: Option<Entry>, at: usize) -> usize
    requires { (8 ≤ at) × ((end_of bytes.now entry at ≤ 1028) × (length list.old ≡ 512)) }
    ensures { Filled (numbers_of bytes.now entry at) list.old list.new result }
{
    let Some(entry) = entry else {
        return 0;
    };
    let n = pair(bytes, at) as usize;
    let numbers = entry.numbers();
    let width = entry.width();
    for i in 0..n {
        put(bytes, &mut list[numbers * i..], entry, at + 2 + width * i);
    }
    numbers * n
}

// The statement that a record holds, its list and its conditions in what is lent; or the record's number, where it is no statement or not of the
// length that it asks.
pub fn statement(
    bytes: &[u8],
    list: &mut [u32; 512],
    conditions: &mut [u32; 512],
    number: u64,
) -> Result<Read, u64>
    ensures { Reading bytes.now number list.old list.new conditions.old conditions.new result }
{
    let Some(what) = what(bytes) else {
        return Err(number);
    };
    let form = form_of(what);
    let end = list_end(bytes, form.list, form.at);
    if !is_whole(bytes) || bytes.len() != list_end(bytes, form.conditions, end) {
        return Err(number);
    }
    Ok(Read {
        statement: Statement {
            level: pair(bytes, 4),
            relation: pair(bytes, 6),
            what,
        },
        listed: fill(bytes, list, form.list, form.at),
        tested: fill(bytes, conditions, form.conditions, end),
    })
}
