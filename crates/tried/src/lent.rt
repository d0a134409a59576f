// Values and their classes, beside one another as the register takes them: the tables that are lent, or the output.
use crate::given::{Given, entry, size};

#[derive(Drop)]
pub(crate) struct Cells<'a> {
    pub(crate) values: &'a mut [u32],
    pub(crate) classes: &'a mut [u8],
}

// A class as it is given.
fn class(number: u32) -> u8 {
    (number % 256) as u8
}

impl<'a> Cells<'a> {
    // So many values and classes at the front of two buffers, as far as these go.
    pub(crate) fn front(
        values: &'a mut [u32],
        classes: &'a mut [u8],
        (n, m): (usize, usize),
    ) -> Self {
        let n = n.min(values.len());
        let m = m.min(classes.len());
        Cells {
            values: &mut values[..n],
            classes: &mut classes[..m],
        }
    }

    // How many values and classes there are.
    pub(crate) fn lengths(&self) -> (usize, usize) {
        (self.values.len(), self.classes.len())
    }

    // As they are given.
    fn give(&mut self, given: &Given) {
        for (cell, value) in self.values.iter_mut().zip(given.values()) {
            *cell = *value;
        }
        for (cell, number) in self.classes.iter_mut().zip(given.classes()) {
            *cell = class(*number);
        }
    }

    // As they are given, but for some cells, which are three numbers each: place, value, class. Of two for one place the first counts, so the last
    // is set first.
    pub(crate) fn set(&mut self, given: &Given, changes: &[u32]) {
        self.give(given);
        for cell in changes.chunks(3).rev() {
            let place = size(cell, 0);
            if let Some(value) = self.values.get_mut(place) {
                *value = entry(cell, 1);
            }
            if let Some(owner) = self.classes.get_mut(place) {
                *owner = class(entry(cell, 2));
            }
        }
    }

    // As others are, as far as both go.
    pub(crate) fn copy(&mut self, from: &Cells<'_>) {
        let n = self.values.len().min(from.values.len());
        self.values[..n].copy_from_slice(&from.values[..n]);
        let m = self.classes.len().min(from.classes.len());
        self.classes[..m].copy_from_slice(&from.classes[..m]);
    }
}
