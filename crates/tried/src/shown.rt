// What is answered, printed with every cell of the four buffers before and after: `.` for (0, 255), and `-` where a buffer has no such cell.
use crate::call::Call;
use crate::given::Given;
use crate::lent::Cells;
use model::Answer;
use std::io;
use std::io::Print;

fn print_part(rt: &impl Print, number: Option<u32>) -> io::Result<()> {
    match number {
        Some(number) => print!(rt; "{number}"),
        None => print!(rt; "-"),
    }
}

fn print_cell(rt: &impl Print, value: Option<u32>, class: Option<u8>) -> io::Result<()> {
    print!(rt; " ")?;
    if value == Some(0) && class == Some(255) {
        return print!(rt; ".");
    }
    print_part(rt, value)?;
    print!(rt; "/")?;
    print_part(rt, class.map(u32::from))
}

fn print_cells(rt: &impl Print, cells: &Cells<'_>) -> io::Result<()> {
    for at in 0..cells.values.len().max(cells.classes.len()) {
        let value = cells.values.get(at).copied();
        let class = cells.classes.get(at).copied();
        print_cell(rt, value, class)?;
    }
    println!(rt)
}

// The tables and what is shown, a line each.
fn show(rt: &impl Print, tables: &Cells<'_>, output: &Cells<'_>) -> io::Result<()> {
    print_cells(rt, tables)?;
    print_cells(rt, output)
}

fn tell(rt: &impl Print, answer: Answer) -> io::Result<()> {
    let number = numbers::number(answer);
    let count = numbers::count(answer);
    println!(rt; "{number} {count}")
}

// The verdict on the tables.
pub(crate) fn judge(rt: &impl Print, given: &Given, tables: &Cells<'_>) -> io::Result<()> {
    let verdict = register::judge(given.description(), tables.values, tables.classes);
    let number = numbers::verdict(verdict);
    print!(rt; " {number}")
}

// The statement that a line's numbers are, with output buffers of which every cell is 9.
pub(crate) fn statement(
    rt: &impl Print,
    given: &Given,
    tables: &mut Cells<'_>,
    line: &[u32],
) -> io::Result<()> {
    let mut shown = [9u32; 16];
    let mut owners = [9u8; 16];
    let mut output = Cells::front(&mut shown, &mut owners, given.output());
    show(rt, tables, &output)?;
    let answer = Call::read(line).run(given.description(), tables, &mut output);
    tell(rt, answer)?;
    show(rt, tables, &output)
}
