// What a statement's lists say: which columns and levels they name.
#![tactic(auto)]

pub mod columns;
mod entries;
pub mod levels;
pub mod pairs;
pub mod table;
