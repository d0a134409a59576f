// Bytes and numbers, from a place of a lent buffer on.
ghost use Rattle.std.specs.Prelude.{◌≡◌, [], ◌∷◌, ◌+◌, ◌<◌, ◌≤◌, ◌^◌};
ghost use Rattle.lines.specs.Text.{digit as digit_of, decimal as decimal_of};
ghost use Rattle.lines.specs.Lines.{space};
ghost use Rattle.lines.specs.Written.{Wrote};
ghost use Rattle.lines.specs.Writes.{Writes};

// A lent buffer, and the place behind what has been written, whether or not the buffer has it.
#[derive(Drop)]
pub(crate) struct Writer<'a> {
    pub(crate) text: &'a mut [u8],
    pub(crate) at: usize,
}

// The byte of a digit.
#[tactic(auto, unfolding(crate::specs::Text::digit))]
fn digit(number: u64) -> u8
    requires { number < 10 }
    ensures { result ≡ digit_of number }
{
    48 + number as u8
}

// One byte at a place of a buffer; answers the next place. This and `decimal` are handed the place and answer it: kept in the writer, each digit waits
// until the place behind the one before is in memory, and lines were tried to take 1.6 times as long.
fn put(text: &mut [u8], at: usize, byte: u8) -> usize
    requires { at < 2 ^ 63 }
    ensures { Wrote at (byte ∷ []) text.old text.new result }
{
    if at < text.len() {
        text[at] = byte;
    }
    at + 1
}

// The decimal digits of a number.
fn decimal(text: &mut [u8], at: usize, number: u64) -> usize
    requires { at < 2 ^ 62 }
    ensures { Wrote at (decimal_of number) text.old text.new result × (result ≤ at + 20) }
{
    let last = if number < 10 {
        at
    } else {
        decimal(text, at, number / 10)
    };
    put(text, last, digit(number % 10))
}

impl Writer<'_> {
    // One byte.
    pub(crate) fn put(&mut self, byte: u8)
        requires { self.old.at < 2 ^ 63 }
        ensures { Writes 1 (byte ∷ []) self.old self.new }
    {
        self.at = put(self.text, self.at, byte);
    }

    // The decimal digits of a number.
    pub(crate) fn decimal(&mut self, number: u64)
        requires { self.old.at < 2 ^ 62 }
        ensures { Writes 20 (decimal_of number) self.old self.new }
    {
        self.at = decimal(self.text, self.at, number);
    }

    // A space and a number.
    pub(crate) fn spaced(&mut self, number: u64)
        requires { self.old.at < 2 ^ 61 }
        ensures { Writes 21 (space ∷ decimal_of number) self.old self.new }
    {
        self.put(b' ');
        self.decimal(number);
    }

    // A letter, a space and a number.
    pub(crate) fn head(&mut self, letter: u8, number: u64)
        requires { self.old.at < 2 ^ 60 }
        ensures { Writes 22 (letter ∷ space ∷ decimal_of number) self.old self.new }
    {
        self.put(letter);
        self.spaced(number);
    }
}
