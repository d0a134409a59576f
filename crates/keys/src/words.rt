// Sets of levels as words: level l is in a set where bit l of its word is 1.
ghost use Rattle.std.specs.Prelude.{◌≡◌, true, ◌<◌};
ghost use Rattle.model.specs.Description.{sound};
ghost use Rattle.keys.specs.Facts.{has_bit, With, pair_of, Word, Words, Orders, Within, Ranges};

use model::Description;

// The class is in the set.
pub fn has(word: u16, class: u8) -> bool
    ensures { result ≡ has_bit word class }
{
    class < 16 && (word >> class) % 2 == 1
}

// The set, with level `b` in it where `on`.
fn with(word: u16, b: usize, on: bool) -> u16
    requires { b < 16 }
    ensures { With word b on result }
{
    if on { word | (1 << b) } else { word }
}

// The levels that level `a` dominates, or, `turned`, is dominated by. A closure for the entry that is read would be no plainer than the flag.
fn word(order: [[bool; 16]; 16], turned: bool, a: usize) -> u16
    requires { a < 16 }
    ensures { Word (pair_of order turned a) 16 result }
{
    let mut word = 0u16;
    for b in 0..16 {
        let on = if turned { order[b][a] } else { order[a][b] };
        word = with(word, b, on);
    }
    word
}

// The same for each level.
pub fn words(order: [[bool; 16]; 16], turned: bool) -> [u16; 16]
    ensures { Words order turned 16 result }
{
    let mut words = [0u16; 16];
    for a in 0..16 {
        words[a] = word(order, turned, a);
    }
    words
}

// The levels from `low` to `high`.
fn range(below: &[u16], above: &[u16], d: Description, low: usize, high: usize) -> u16
    requires { (sound d ≡ true) × Orders d below.now above.now }
    ensures { Within d low high result }
{
    below.get(high).copied().unwrap_or(0) & above.get(low).copied().unwrap_or(0)
}

// The range of each column.
pub fn ranges(below: &[u16], above: &[u16], d: Description) -> [u16; 81]
    requires { (sound d ≡ true) × Orders d below.now above.now }
    ensures { Ranges d 81 result }
{
    let mut ranges = [0u16; 81];
    for p in 0..81 {
        ranges[p] = range(
            below,
            above,
            d,
            usize::from(d.low[p]),
            usize::from(d.high[p]),
        );
    }
    ranges
}
