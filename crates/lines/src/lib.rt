// What is printed for an answer, as bytes into a lent buffer.
#![tactic(auto)]

mod rows;
mod writer;

ghost use Rattle.std.specs.Prelude.{◌≡◌};
ghost use Rattle.lines.specs.Lines.{kind_of, answer_line, answer_text, refusal_text};
ghost use Rattle.lines.specs.Written.{Wrote};
ghost use Rattle.lines.specs.Writes.{Writes};

use model::{Answer, What};
use rows::Rows;
use writer::Writer;

// The number of a statement's kind. No `From`: that impl would stand in `model`, and the numbers that are printed are this crate's.
#[tactic(auto, unfolding(crate::specs::Lines::kind_of))]
fn kind(what: What) -> u64
    ensures { result ≡ kind_of what }
{
    match what {
        What::Insert => 16,
        What::Delete => 17,
        What::Update => 18,
        What::Uplevel { key: _, class: _ } => 19,
        What::Select => 20,
    }
}

// The line of an answer, at the start of the buffer: its statement's kind, the number answered and the count.
fn line(text: &mut Writer, what: What, answer: Answer)
    requires { text.old.at ≡ 0 }
    ensures { Writes 128 (answer_line what answer) text.old text.new }
{
    text.head(b'a', kind(what));
    text.spaced(numbers::number(answer) as u64);
    text.spaced(numbers::count(answer) as u64);
    text.put(b'\n');
}

// The lines of an answer, from the start of the buffer; answers how many bytes they have. SELECT's rows stand in the output buffers.
pub fn answer(
    shown: &[u32],
    owners: &[u8],
    text: &mut [u8],
    what: What,
    answer: Answer,
    columns: u16,
) -> usize
    ensures { Wrote 0 (answer_text what answer columns shown.now owners.now) text.old text.new result }
{
    let mut lines = Writer { text, at: 0 };
    line(&mut lines, what, answer);
    if matches!(what, What::Select) {
        let rows = Rows {
            shown,
            owners,
            columns,
        };
        lines.rows(&rows, numbers::count(answer));
    }
    lines.at
}

// The line of a record that is refused, from the start of the buffer; answers how many bytes it has.
pub fn refusal(text: &mut [u8], number: u64) -> usize
    ensures { Wrote 0 (refusal_text number) text.old text.new result }
{
    let mut line = Writer { text, at: 0 };
    line.head(b'x', number);
    line.put(b'\n');
    line.at
}
