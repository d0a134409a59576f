// Which entity is meant.
ghost use Rattle.std.specs.Prelude.{◌≡◌, None, ◌≢◌};
ghost use Rattle.model.specs.Tables.{rows_of};
ghost use Rattle.model.specs.Uplevel.{based as based_of};
ghost use Rattle.change.specs.Facts.{Standing, sight};
ghost use Rattle.uplevel.specs.Raising.{own_of};

use asked::table::Table;
use model::Fault;

// An entity: its key, which is not 0, and its key class.
#[derive(Clone, Copy)]
pub struct Entity {
    pub key: u32,
    pub class: u8,
    pub ghost keyed: { key ≢ 0 },
}

// Whether an entity has a base row that the subject sees.
fn based(values: &[u32], classes: &[u8], table: Table, subject: usize, entity: Entity) -> bool
    requires { Standing table.part.description table.part.relation subject values.now classes.now }
    ensures { result ≡ based_of table.part.description subject table.part.relation entity.key (rows_of (sight table.part.description subject values.now classes.now)) entity.class }
{
    let level = entity.class as usize;
    if !table.levels().over(subject, level) {
        return false;
    }
    let part = table.part;
    part.entity(values, classes, level, entity.key, entity.class)
        .is_some()
}

// The key class of the only entity with a key and a base row that the subject sees.
fn sole(values: &[u32], classes: &[u8], table: Table, subject: usize, key: u32) -> Result<u8, Fault>
    requires standing { Standing table.part.description table.part.relation subject values.now classes.now }
    requires key_nonzero { key ≢ 0 }
    ensures { result ≡ own_of table.part.description subject table.part.relation key None (rows_of (sight table.part.description subject values.now classes.now)) }
{
    let levels = table.part.description.levels as u8;
    let mut sole = None;
    for class in 0..levels {
        if based(values, classes, table, subject, Entity { key, class }) {
            if sole.is_some() {
                return Err(Fault::Several);
            }
            sole = Some(class);
        }
    }
    sole.ok_or(Fault::Absent)
}

// The key class of the entity that is meant: the one that is given, where that has a base row that the subject sees, else the only one that has.
pub(crate) fn own(
    values: &[u32],
    classes: &[u8],
    table: Table,
    subject: usize,
    key: u32,
    given: Option<u8>,
) -> Result<u8, Fault>
    requires standing { Standing table.part.description table.part.relation subject values.now classes.now }
    requires key_nonzero { key ≢ 0 }
    ensures { result ≡ own_of table.part.description subject table.part.relation key given (rows_of (sight table.part.description subject values.now classes.now)) }
{
    let Some(class) = given else {
        return sole(values, classes, table, subject, key);
    };
    if !based(values, classes, table, subject, Entity { key, class }) {
        return Err(Fault::Absent);
    }
    Ok(class)
}
