// An input of records, as far as it was read: the record at the front of the bytes that are there, and how these bytes move in their buffer.
#![tactic(auto)]

pub mod buffer;
pub mod front;
