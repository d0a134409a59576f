// One record of mlrun's stream: what it does to what is kept, and what it prints. The tables' two buffers are parameters of their own, as
// `register::run` is lent them.
#![tactic(auto)]

ghost use Rattle.std.specs.Prelude.{◌≡◌};
ghost use Rattle.model.specs.Description.{column_count};
ghost use Rattle.stream.specs.Step.{refuses, labels_turn, relation_turn, row_turn, statement_turn, step as step_of};
ghost use Rattle.stream.specs.Facts.{Turns, TurnsAny, Answers, taken_of};

use model::{Description, Statement};
use placing::place;
use records::descriptions;
use records::statement::statement;

// What is kept from record to record, beside the buffers.
#[derive(Clone, Copy)]
pub struct Kept {
    // the kind of the last record, none where none has come
    pub last: Option<u16>,
    pub description: Description,
}

// What a record comes to, beside the buffers.
#[derive(Clone, Copy)]
pub struct Stepped {
    // how many bytes are printed
    pub printed: usize,
    // what is kept for the next record, or as it was given where the record is refused and no other is read
    pub kept: Result<Kept, Kept>,
}

// A record has been taken; `last` is what is kept of its kind.
fn taken(printed: usize, last: Option<u16>, description: Description) -> Stepped
    ensures { result ≡ taken_of printed last description }
{
    Stepped {
        printed,
        kept: Ok(Kept { last, description }),
    }
}

// The record is refused.
fn refuse(text: &mut [u8], kept: Kept, number: u64) -> Stepped
    ensures { TurnsAny (λ h. refuses h number) kept text result }
{
    Stepped {
        printed: lines::refusal(text, number),
        kept: Err(kept),
    }
}

// A record of kind 1.
fn labels(bytes: &[u8], text: &mut [u8], kept: Kept, number: u64) -> Stepped
    ensures { TurnsAny (λ h. labels_turn h number bytes.now) kept text result }
{
    if !descriptions::is_labels(bytes) {
        return refuse(text, kept, number);
    }
    taken(0, Some(1), descriptions::labels(bytes, kept.description))
}

// A record of kind 2. One function for kinds 1 and 2 would take the test and the change as parameters, and be no plainer.
fn relation(bytes: &[u8], text: &mut [u8], kept: Kept, number: u64) -> Stepped
    ensures { TurnsAny (λ h. relation_turn h number bytes.now) kept text result }
{
    if !descriptions::is_relation(bytes) {
        return refuse(text, kept, number);
    }
    taken(0, Some(2), descriptions::relation(bytes, kept.description))
}

// A record of kind 3. Whether the description breaks a rule is left to `place`, which lays out the order: no row is placed then, whatever part of
// the room it is handed.
fn row(
    bytes: &[u8],
    values: &mut [u32],
    classes: &mut [u8],
    text: &mut [u8],
    kept: Kept,
    number: u64,
) -> Stepped
    ensures { Turns (λ h. row_turn h number bytes.now) kept values classes text result }
{
    let description = kept.description;
    let extent = describe::total(description);
    if values.len() < extent || classes.len() < extent {
        return refuse(text, kept, number);
    }
    if !place(
        bytes,
        &mut values[..extent],
        &mut classes[..extent],
        description,
    ) {
        return refuse(text, kept, number);
    }
    taken(0, Some(3), description)
}

// How many columns a relation has; none where it doesn't exist.
fn columns(description: Description, relation: u16) -> u16
    ensures { result ≡ column_count description relation }
{
    if !(1..=description.relations).contains(&relation) {
        return 0;
    }
    let columns = description.columns;
    columns.get(relation as usize).copied().unwrap_or(0)
}

// The statement is run on the tables, and answered: how many bytes are printed. Whether the description breaks a rule is left to `run`, which lays
// out the order: it is then refused, whatever part of the room is handed in.
fn answer(
    list: &[u32],
    conditions: &[u32],
    values: &mut [u32],
    classes: &mut [u8],
    text: &mut [u8],
    description: Description,
    statement: Statement,
) -> usize
    ensures { Answers statement list conditions description values classes text result }
{
    let extent = describe::total(description);
    let a = extent.min(values.len());
    let b = extent.min(classes.len());
    let mut shown = [0u32; 8192];
    let mut owners = [0u8; 9216];
    let answer = register::run(
        description,
        &mut values[..a],
        &mut classes[..b],
        statement,
        list,
        conditions,
        &mut shown,
        &mut owners,
    );
    let columns = columns(description, statement.relation);
    lines::answer(&shown, &owners, text, statement.what, answer, columns)
}

// The record is read to a statement, which is run, or to its place of refusal.
fn call(
    bytes: &[u8],
    values: &mut [u32],
    classes: &mut [u8],
    text: &mut [u8],
    kept: Kept,
    kind: u16,
    number: u64,
) -> Stepped
    ensures { Turns (λ h. statement_turn h kind number bytes.now) kept values classes text result }
{
    let description = kept.description;
    let mut list = [0u32; 512];
    let mut conditions = [0u32; 512];
    match statement(bytes, &mut list, &mut conditions, number) {
        Err(place) => refuse(text, kept, place),
        Ok(read) => {
            let printed = answer(
                &list[..read.listed],
                &conditions[..read.tested],
                values,
                classes,
                text,
                description,
                read.statement,
            );
            taken(printed, Some(kind), description)
        }
    }
}

// One record, by its kind.
pub fn step(
    bytes: &[u8],
    values: &mut [u32],
    classes: &mut [u8],
    text: &mut [u8],
    kept: Kept,
    number: u64,
) -> Stepped
    ensures { Turns (λ h. step_of h number bytes.now) kept values classes text result }
{
    match records::whole::kind(bytes, kept.last) {
        None => refuse(text, kept, number),
        Some(1) => labels(bytes, text, kept, number),
        Some(2) => relation(bytes, text, kept, number),
        Some(3) => row(bytes, values, classes, text, kept, number),
        Some(kind) => call(bytes, values, classes, text, kept, kind, number),
    }
}
