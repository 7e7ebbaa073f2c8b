// Whether a circuit whose states are counted is folded: 14 by which plan is wanted, and 7.
#![tactic(auto)]

pub mod wanted;

ghost use Rattle.std.specs.Prelude.{◌≡◌};
ghost use Rattle.verdict.specs.Judgements.{figures};
ghost use Rattle.circuit.specs.WellFormed.{Accepted};
ghost use Rattle.source.specs.Source.{sourced, SourceOf};
ghost use Rattle.ask.specs.Plan.{Counted};
ghost use Rattle.admit.specs.Admit.{table_checked};

use ask::plan_of;
use source::Source;
use survey::Counts;
use verdict::{Refusal, Verdict};
use wanted::agrees;

// What is judged of a circuit whose states are counted: 14 and 7.
#[tactic(auto, using(crate::proofs::Judged::bytes_are), unfolding(folded::specs::Folded::room_checked))]
pub fn judge_counts(
    circuit: &[u8],
    counts: Counts,
    wanted: Option<&[u64]>,
    room: usize,
    source: Source,
) -> Verdict
    requires { SourceOf circuit.now source × Accepted (sourced source circuit.now) × Counted (sourced source circuit.now) counts }
    ensures { figures result ≡ table_checked (sourced source circuit.now) wanted.entry room }
{
    let plan = plan_of(circuit, counts, source);
    if !agrees(wanted, plan) {
        return Err(Refusal::Plan(0));
    }
    let bytes = plan.bytes;
    if room < bytes {
        return Err(Refusal::Room(bytes));
    }
    Ok(bytes)
}
