// What is given is a list of numbers. From place 0 on it has the description, field by field; from 216 on how long values, classes, shown and
// owners are; from 1,000 on the values and from 10,000 on the classes.
ghost use Rattle.std.specs.Prelude.{◌+◌, ◌≤◌};

use model::Description;
use std::array;

// The number at a place; 0 behind the end.
pub(crate) fn entry(numbers: &[u32], place: usize) -> u32 {
    numbers.get(place).copied().unwrap_or(0)
}

pub(crate) fn word(numbers: &[u32], place: usize) -> u16 {
    (entry(numbers, place) % 65536) as u16
}

pub(crate) fn size(numbers: &[u32], place: usize) -> usize {
    entry(numbers, place) as usize
}

#[derive(Drop)]
pub(crate) struct Given {
    numbers: [u32; 20000],
}

impl Given {
    pub(crate) fn new() -> Self {
        Given {
            numbers: [0; 20000],
        }
    }

    // One number for each level, relation, or relation and column.
    fn words<const N: usize>(&self, from: usize) -> [u16; N]
        requires { from + N ≤ 1000 }
    {
        array::from_fn(|i| word(&self.numbers, from + i))
    }

    pub(crate) fn description(&self) -> Description {
        Description {
            levels: word(&self.numbers, 0),
            labels: self.words(1),
            relations: word(&self.numbers, 17),
            columns: self.words(18),
            rows: self.words(27),
            foreign: self.words(36),
            refers: self.words(45),
            low: self.words(54),
            high: self.words(135),
        }
    }

    // How many values and classes the tables have.
    pub(crate) fn tables(&self) -> (usize, usize) {
        (size(&self.numbers, 216), size(&self.numbers, 217))
    }

    // How many values and owners the output has room for.
    pub(crate) fn output(&self) -> (usize, usize) {
        (size(&self.numbers, 218), size(&self.numbers, 219))
    }

    pub(crate) fn values(&self) -> &[u32] {
        &self.numbers[1000..10000]
    }

    pub(crate) fn classes(&self) -> &[u32] {
        &self.numbers[10000..19000]
    }

    // A line's numbers are a place, how many numbers are stored from there on, and the numbers, which are stored over and over.
    pub(crate) fn store(&mut self, line: &[u32]) {
        let [place, count, numbers @ ..] = line else {
            return;
        };
        let from = *place as usize;
        let to = from + *count as usize;
        if self.numbers.len() < to {
            return;
        }
        for (to, from) in self.numbers[from..to]
            .iter_mut()
            .zip(numbers.iter().cycle())
        {
            *to = *from;
        }
    }
}
