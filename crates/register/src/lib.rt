// The register: what a laboratory calls.
#![tactic(auto)]

mod formed;
mod serve;

ghost use Rattle.std.specs.Prelude.{◌≡◌};
ghost use Rattle.model.specs.Judge as judges;
ghost use Rattle.model.specs.Buffers.{holding};
ghost use Rattle.model.specs.Ledger.{lending};
ghost use Rattle.register.specs.Calls.{Runs};

use asked::levels::Levels;
use model::{Answer, Description, Statement, Verdict};

// What is to be said of a description and two buffers: the first of what is wrong.
pub fn judge(description: Description, values: &[u32], classes: &[u8]) -> Verdict
    ensures { result ≡ judges.judge description (lending (holding values.now classes.now)) }
{
    judge::judge(description, values, classes)
}

// One statement: the tables are judged, and the statement is answered, refused or carried out in place.
pub fn run(
    description: Description,
    values: &mut [u32],
    classes: &mut [u8],
    statement: Statement,
    list: &[u32],
    conditions: &[u32],
    shown: &mut [u32],
    owners: &mut [u8],
) -> Answer
    ensures { Runs description statement list conditions values classes shown owners result }
{
    let labels = description.labels;
    let order = level::order(labels, description.levels as usize);
    match judge::verdict(description, order, values, classes) {
        Ok(()) => {
            let levels = Levels { description, order };
            serve::serve(
                values, classes, list, conditions, shown, owners, levels, statement,
            )
        }
        // No `?`: the edit `run_other_number` has its other number in this arm, and the proof keeps its names.
        Err(fault) => Err(fault),
    }
}
