// What a statement does to the rows above, of one relation.
ghost use Rattle.std.specs.Prelude.{◌≡◌, ◌<◌};
ghost use Rattle.model.specs.Tables.{cell};
ghost use Rattle.above.specs.Facts.{becomes, handed};

// What becomes of a cell of the subject's class.
#[derive(Clone, Copy)]
pub enum Change {
    // it stays
    Keep,
    // it becomes this cell
    Take { value: u32, class: u8 },
    // it becomes null, class kept, unless it is this cell
    Only { value: u32, class: u8 },
}

// A row at the subject's level is touched where it is chosen; its entity's rows above are emptied where `gone` holds and the entity is the
// subject's own; else their cells of the subject's class change, by column.
#[derive(Clone, Copy)]
pub struct Plan {
    pub chosen: [bool; 64],
    pub gone: bool,
    pub changes: [Change; 9],
}

impl Change {
    // What a cell becomes: its value and its class.
    pub(crate) fn turns(self, value: u32, class: u8) -> (u32, u8)
        ensures { cell result.0 result.1 ≡ becomes self (cell value class) }
    {
        match self {
            Change::Keep => (value, class),
            Change::Take { value, class } => (value, class),
            Change::Only {
                value: planned,
                class: owner,
            } => {
                if value == planned && class == owner {
                    (value, class)
                } else {
                    (0, class)
                }
            }
        }
    }
}

impl Plan {
    // The plan with own null in one column.
    pub(crate) fn hand(self, column: usize, null: u8) -> Plan
        requires { column < 9 }
        ensures { result ≡ handed self column null }
    {
        let mut plan = self;
        plan.changes[column] = Change::Take {
            value: 0,
            class: null,
        };
        plan
    }
}
