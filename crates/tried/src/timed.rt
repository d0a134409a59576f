// What `bench/run` times: a statement or the judge, some times over. Of the last is printed the number of a verdict or of a refusal, or 100
// times the count of a statement that was done.
use crate::call::Call;
use crate::given::{Given, entry};
use crate::lent::Cells;
use model::{Answer, Description};
use std::io;
use std::io::Print;

// The number answered, and 100 times the count.
fn told(answer: Answer) -> u64 {
    u64::from(numbers::count(answer)) * 100 + u64::from(numbers::number(answer))
}

// Judges the same tables some times over; the last verdict's number, or 4 where there is none.
fn judged(description: Description, tables: &Cells<'_>, times: u32) -> u64 {
    let mut last = None;
    for _ in 0..times {
        last = Some(register::judge(description, tables.values, tables.classes));
    }
    last.map_or(4, |verdict| u64::from(numbers::verdict(verdict)))
}

// The same statement some times over, each time on the tables as they stand; what the last was answered.
fn repeated(description: Description, tables: &Cells<'_>, call: &Call<'_>, times: u32) -> u64 {
    let mut values = [0u32; 8200];
    let mut classes = [0u8; 8200];
    let mut shown = [0u32; 8192];
    let mut owners = [0u8; 9216];
    let mut room = Cells::front(&mut values, &mut classes, tables.lengths());
    let mut output = Cells {
        values: &mut shown,
        classes: &mut owners,
    };
    let mut last = 0;
    for _ in 0..times {
        room.copy(tables);
        last = told(call.run(description, &mut room, &mut output));
    }
    last
}

// How often, and the statement or the judge.
pub(crate) fn repeat(
    rt: &impl Print,
    given: &Given,
    tables: &Cells<'_>,
    line: &[u32],
) -> io::Result<()> {
    let Some((times, line)) = line.split_first() else {
        return Ok(());
    };
    let description = given.description();
    let last = match entry(line, 0) {
        0 => judged(description, tables, *times),
        _ => repeated(description, tables, &Call::read(line), *times),
    };
    println!(rt; "{last}")
}
