// mlrun's records, read one at a time.
#![tactic(auto)]

pub mod bytes;
pub mod descriptions;
mod kinds;
pub mod statement;
pub mod whole;

use model::Statement;

// What a statement's record is read to: the statement, and how many numbers its list and its conditions have.
#[derive(Clone, Copy)]
pub struct Read {
    pub statement: Statement,
    pub listed: usize,
    pub tested: usize,
}
