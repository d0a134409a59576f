// A statement as a line's numbers say it: kind, level, relation, key and key class; then its list, behind how long that is; then its conditions.
use crate::given::{entry, size, word};
use crate::lent::Cells;
use model::{Answer, Description, Statement, What};

#[derive(Clone, Copy)]
pub(crate) struct Call<'a> {
    statement: Statement,
    list: &'a [u32],
    conditions: &'a [u32],
}

fn what(kind: u16, key: u32, class: u16) -> What {
    match kind {
        16 => What::Insert,
        17 => What::Delete,
        18 => What::Update,
        19 => What::Uplevel { key, class },
        _ => What::Select,
    }
}

impl<'a> Call<'a> {
    pub(crate) fn read(numbers: &'a [u32]) -> Self {
        let lists = numbers.get(6..).unwrap_or(&[]);
        let (list, conditions) = lists.split_at(size(numbers, 5).min(lists.len()));
        Call {
            statement: Statement {
                level: word(numbers, 1),
                relation: word(numbers, 2),
                what: what(word(numbers, 0), entry(numbers, 3), word(numbers, 4)),
            },
            list,
            conditions,
        }
    }

    // The register is asked.
    pub(crate) fn run(
        &self,
        description: Description,
        tables: &mut Cells<'_>,
        output: &mut Cells<'_>,
    ) -> Answer {
        register::run(
            description,
            tables.values,
            tables.classes,
            self.statement,
            self.list,
            self.conditions,
            output.values,
            output.classes,
        )
    }
}
