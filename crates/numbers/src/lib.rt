// 01's numbers: what each fault, answer and verdict is called there.
#![tactic(auto)]

ghost use Rattle.std.specs.Prelude.{◌≡◌};
ghost use Rattle.model.specs.Numbers.{fault_number, answer_number, count_of, verdict_number};

use model::{Answer, Fault, Verdict};

// The number of a fault.
#[tactic(auto, using(crate::proofs::Places::place))]
fn fault(fault: Fault) -> u32
    ensures { result ≡ fault_number fault }
{
    fault as u32
}

// The number of an answer: 0 for done, else the fault's.
#[tactic(auto, unfolding(model::specs::Numbers::answer_number))]
pub fn number(answer: Answer) -> u32
    ensures { result ≡ answer_number answer }
{
    answer.err().map_or(0, fault)
}

// The count of an answer: 0 for a refusal.
#[tactic(auto, unfolding(model::specs::Numbers::count_of))]
pub fn count(answer: Answer) -> u32
    ensures { result ≡ count_of answer }
{
    answer.unwrap_or(0)
}

// The number of a verdict: 0 for legal.
#[tactic(auto, unfolding(model::specs::Numbers::verdict_number))]
pub fn verdict(verdict: Verdict) -> u32
    ensures { result ≡ verdict_number verdict }
{
    verdict.err().map_or(0, fault)
}
