// What is kept from record to record: the room for the tables, and what a step keeps beside it.
use crate::writing::Writer;
use records::descriptions::nothing;
use stream::step;

// The room is lent: a copy of it would be made where it is put into a struct, and take as much of the stack again.
#[derive(Drop)]
pub(crate) struct Kept<'a> {
    values: &'a mut [u32],
    classes: &'a mut [u8],
    beside: stream::Kept,
}

impl<'a> Kept<'a> {
    // Nothing was read yet.
    pub(crate) fn new(values: &'a mut [u32], classes: &'a mut [u8]) -> Self {
        Kept {
            values,
            classes,
            beside: stream::Kept {
                last: None,
                description: nothing(),
            },
        }
    }

    // The record takes its step; what it prints waits behind what is waiting. Answers whether the next one is read.
    pub(crate) fn take(&mut self, record: &[u8], writer: &mut Writer, number: u64) -> bool {
        let room = &mut writer.buffer[writer.waiting..];
        let most = room.len();
        let stepped = step(record, self.values, self.classes, room, self.beside, number);
        writer.waiting += stepped.printed.min(most);
        match stepped.kept {
            Ok(beside) => {
                self.beside = beside;
                true
            }
            Err(_) => false,
        }
    }
}
