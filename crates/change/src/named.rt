// The rows that references name. Key 0 is null, and foreign column 0 says that there is no reference: the call has both so (01).
ghost use Rattle.std.specs.Prelude.{◌≡◌, true, ◌≢◌, List, ℕ, length};
ghost use Rattle.model.specs.Description.{is_column, foreign_of};
ghost use Rattle.model.specs.Tables.{rows_of};
ghost use Rattle.model.specs.Buffers.{holding, state_of};
ghost use Rattle.model.specs.Listed.{each};
ghost use Rattle.model.specs.Effect.{names_row};
ghost use Rattle.model.specs.Insert.{listed_names};
ghost use Rattle.change.specs.Facts.{Naming};

use asked::pairs::find;
use cells::layout::lay;
use model::Description;

// Whether a reference to a key is null or has its row at a level.
pub fn names(
    values: &[u32],
    description: Description,
    relation: usize,
    level: usize,
    key: u32,
) -> bool
    requires naming { Naming description relation level (length values.now) }
    requires relation_nonzero { foreign_of description relation ≢ 0 }
    ensures { (classes : List ℕ) → result ≡ names_row description level relation (rows_of (state_of description (holding values.now classes))) key }
{
    if key == 0 {
        return true;
    }
    let target = description.refers[relation] as usize;
    lay(description, target).find(values, level, key).is_some()
}

// Whether a reference that is listed is null or has its row at a level.
pub fn listed(
    values: &[u32],
    list: &[u32],
    description: Description,
    relation: usize,
    level: usize,
) -> bool
    requires naming { Naming description relation level (length values.now) }
    requires columns_listed { each (λ k v. is_column description relation k) list.now ≡ true }
    ensures { (classes : List ℕ) → result ≡ listed_names description level relation list.now (rows_of (state_of description (holding values.now classes))) }
{
    let column = description.foreign[relation] as usize;
    if column == 0 {
        return true;
    }
    match find(list, column) {
        Some(at) => names(values, description, relation, level, list[2 * at + 1]),
        None => true,
    }
}
