// A list of pairs: a column, and a value or a FROM level.
ghost use Rattle.std.specs.Prelude.{◌≡◌};
ghost use Rattle.model.specs.Listed.{columns_once};
ghost use Rattle.asked.specs.Facts.{Found};

use crate::entries;

// What is asked of each pair. No closure says it, since contracts name each rule by its definition (`rule_of`).
#[derive(Clone, Copy)]
pub enum Rule {
    // the column exists
    Column,
    // the column and the FROM level exist
    From,
    // this level is in the column's range
    Takes { level: usize },
    // the FROM level is in the column's range
    Lends,
    // the FROM level is dominated by this level
    Below { level: usize },
    // the FROM level dominates this level
    Above { level: usize },
}

// No column is listed twice.
pub fn once(list: &[u32]) -> bool
    ensures { result ≡ columns_once list.now }
{
    entries::once(list.as_chunks::<2>().0)
}

// The pair of a column.
pub fn find(list: &[u32], column: usize) -> Option<usize>
    ensures { Found list.now column result }
{
    let (pairs, _) = list.as_chunks::<2>();
    pairs
        .iter()
        .position(|[listed, _]| *listed as usize == column)
}
