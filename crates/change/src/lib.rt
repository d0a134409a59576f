// What the five statements share: the rows that references name, and what each statement promises.
#![tactic(auto)]

pub mod named;
