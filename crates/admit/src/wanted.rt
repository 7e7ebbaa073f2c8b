// Which plan was agreed on.
ghost use Rattle.std.specs.Prelude.{◌≡◌, length};
ghost use Rattle.layered.specs.Search.{equal};
ghost use Rattle.folded.specs.Planned.{plan_length};
ghost use Rattle.ask.specs.Plan.{plan_numbers};
ghost use Rattle.admit.specs.Admit.{agreed_on};

use ask::plan::{Limits, Plan};

// Whether the numbers are those of the plan. A loop, and no `==` of slices: with that, a wrong test was refused only for being written otherwise.
fn same_numbers(numbers: &[u64], plan: &[u64]) -> bool
    requires { (length numbers.now ≡ plan_length) × (length plan.now ≡ plan_length) }
    ensures { result ≡ equal numbers.now plan.now }
{
    for i in 0..Limits::NUMBERS {
        if numbers[i] != plan[i] {
            return false;
        }
    }
    true
}

// Whether a plan is the one that is wanted: any, where none is named; else the one with these numbers.
#[tactic(auto, using(crate::proofs::Judged::other_length), unfolding(crate::specs::Admit::agreed_on))]
pub fn agrees(wanted: Option<&[u64]>, plan: Plan) -> bool
    ensures { result ≡ agreed_on wanted.entry (plan_numbers plan) }
{
    match wanted {
        None => true,
        Some(numbers) => {
            let its = plan.numbers();
            if numbers.len() != Limits::NUMBERS {
                return false;
            }
            same_numbers(numbers, &its)
        }
    }
}
