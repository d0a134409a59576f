// The rows of a SELECT, as they stand in the output buffers.
ghost use Rattle.std.specs.Prelude.{◌≡◌, get_or, ◌*◌, ◌<◌, ◌^◌};
ghost use Rattle.bounded.specs.Lists.{concat_below};
ghost use Rattle.lines.specs.Lines.{class_text, cell_text, cell_texts, row_line};
ghost use Rattle.lines.specs.Writes.{Writes};

use super::writer::Writer;

// The output buffers: each row has its values in the one, and its classes then TC in the other. A number behind their end counts 0.
#[derive(Clone, Copy)]
pub(crate) struct Rows<'a> {
    pub(crate) shown: &'a [u32],
    pub(crate) owners: &'a [u8],
    pub(crate) columns: u16,
}

// The number at a place of the output; what is given behind its end.
fn number<T: Copy>(numbers: &[T], at: usize, behind: T) -> T
    ensures { result ≡ get_or numbers.now at behind }
{
    numbers.get(at).copied().unwrap_or(behind)
}

impl Writer<'_> {
    // A class; 255 as a dash.
    fn class(&mut self, class: u8)
        requires { self.old.at < 2 ^ 62 }
        ensures { Writes 20 (class_text class) self.old self.new }
    {
        if class == 255 {
            self.put(b'-');
        } else {
            self.decimal(class as u64);
        }
    }

    // A space, a value, a slash and its class.
    fn cell(&mut self, value: u32, class: u8)
        requires { self.old.at < 2 ^ 60 }
        ensures { Writes 42 (cell_text value class) self.old self.new }
    {
        self.spaced(value as u64);
        self.put(b'/');
        self.class(class);
    }

    // The cells of a row, whose values and classes start at two places of the output.
    fn cells(&mut self, rows: &Rows, values: usize, classes: usize)
        requires at { self.old.at < 2 ^ 59 }
        requires values { values < 2 ^ 60 }
        requires classes { classes < 2 ^ 60 }
        ensures { Writes (42 * rows.now.columns) (cell_texts rows.now.columns rows.now.shown.now rows.now.owners.now values classes) self.old self.new }
    {
        for k in 0..rows.columns as usize {
            let value = number(rows.shown, values + k, 0);
            let class = number(rows.owners, classes + k, 0);
            self.cell(value, class);
        }
    }

    // The line of a row: its TC and its cells.
    fn row(&mut self, rows: &Rows, i: u32)
        requires { self.old.at < 2 ^ 58 }
        ensures { Writes (2 ^ 22) (row_line rows.now.columns rows.now.shown.now rows.now.owners.now i) self.old self.new }
    {
        let columns = rows.columns as usize;
        let values = i as usize * columns;
        let classes = i as usize * (columns + 1);
        let owner = number(rows.owners, classes + columns, 0);
        self.head(b'r', owner as u64);
        self.cells(rows, values, classes);
        self.put(b'\n');
    }

    // The lines of so many rows.
    pub(crate) fn rows(&mut self, rows: &Rows, count: u32)
        requires { self.old.at < 2 ^ 57 }
        ensures { Writes (2 ^ 22 * count) (concat_below count (row_line rows.now.columns rows.now.shown.now rows.now.owners.now)) self.old self.new }
    {
        for i in 0..count {
            self.row(rows, i);
        }
    }
}
