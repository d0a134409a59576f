// Does what the lines of its input ask of the register, one after the other, and prints what is answered. Its own input, `stdin`, has the
// scope's worked rows, a refusal of each number, the answers that only a caller of the library can get, and tables with one fault each;
// `bench/run` gives it larger tables and times it. What a line asks is said by its first letter; numbers are read wherever they stand in it,
// and words between them are for the reader:
//   >P1, =legal:                   prints what follows, the first with the end of the line
//   given PLACE COUNT: N..         numbers from a place on, N.. over and over (`given` has the places)
//   tables PLACE VALUE CLASS ..    the tables are those given, but for these cells
//   judge                          the tables are judged, and the verdict's number is printed
//   statement KIND LEVEL RELATION KEY CLASS LENGTH: LIST.. CONDITIONS..
//                                  the statement is run on the tables; its answer is printed between all cells before and after
//   repeat TIMES KIND ..           the same so often, each time on the tables as they stand, or the judge for kind 0; the last answer is printed
// Every other line is passed over.
#![tactic(auto)]

mod call;
mod given;
mod lent;
mod read;
mod shown;
mod timed;

use given::Given;
use lent::Cells;
use std::io;
use std::io::Print;

// What a line with these numbers asks.
fn act(
    rt: &impl Print,
    line: &[u8],
    numbers: &[u32],
    given: &mut Given,
    mut tables: Cells<'_>,
) -> io::Result<()> {
    match line {
        [b'>', text @ ..] | [b'=', text @ .., _] => rt.write_all(text)?,
        [b'g', ..] => given.store(numbers),
        [b't', ..] => tables.set(given, numbers),
        [b'j', ..] => shown::judge(rt, given, &tables)?,
        [b's', ..] => shown::statement(rt, given, &mut tables, numbers)?,
        [b'r', ..] => timed::repeat(rt, given, &tables, numbers)?,
        _ => {}
    }
    Ok(())
}

// Line after line, as long as what they print can be written.
fn lines(rt: &impl Print, bytes: &[u8]) -> io::Result<()> {
    let mut given = Given::new();
    let mut values = [0u32; 8200];
    let mut classes = [0u8; 8200];
    for line in bytes.split_inclusive(|byte| *byte == b'\n') {
        let mut room = [0u32; 600];
        let numbers = read::numbers(line, &mut room);
        let tables = Cells::front(&mut values, &mut classes, given.tables());
        act(rt, line, numbers, &mut given, tables)?;
    }
    Ok(())
}

fn main(rt: HostRuntime) -> io::Result<()> {
    let mut bytes = [0u8; 131072];
    let mut stdin = rt.stdin();
    lines(&rt, read::full(&mut stdin, &mut bytes))
}
