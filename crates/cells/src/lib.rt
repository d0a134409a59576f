// Cells in the two buffers: where one stands, reading and writing it, and searches over the rows of a level. Every function is told which
// relation it works on by its `Part`; the description beside it is never read, and names in the contract what the numbers are.
#![tactic(auto)]

pub mod layout;
mod place;
pub mod read;
pub mod search;
pub mod write;
