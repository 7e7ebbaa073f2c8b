// Commits to a plan: folds a circuit if its table has the sizes, counts and bytes that were agreed on.
#![tactic(auto)]

ghost use Rattle.std.specs.Prelude.{◌≡◌, length};
ghost use Rattle.verdict.specs.Judgements.{figures};
ghost use Rattle.folded.specs.Folded.{scratch_after, nodes_after};
ghost use Rattle.folded.specs.Planned.{commit_checked, commit_result};
ghost use Rattle.folded.specs.Theorems.{Committing};
ghost use Rattle.ask.specs.Plan.{plan_numbers};
ghost use Rattle.fold.specs.Fold.{Promised};

use ask::plan::Plan;
use fold::fold_wanted;
use nodes::Node;
use verdict::Verdict;

// Commits to the plan with these numbers. A list of another length is no circuit's plan, and so 14 as well.
pub fn commit_numbers(
    circuit: &[u8],
    numbers: &[u64],
    scratch: &mut [u16],
    nodes: &mut [Node],
    res: &mut [u8],
) -> Verdict
    ensures verdict { figures result ≡ commit_checked circuit.now numbers.now (length scratch.old) (length nodes.old) (length res.old) }
    ensures res { res.new ≡ commit_result circuit.now numbers.now (length scratch.old) (length nodes.old) res.old }
    ensures scratch { scratch.new ≡ scratch_after circuit.now scratch.old }
    ensures nodes { nodes.new ≡ nodes_after circuit.now (length scratch.old) nodes.old }
    ensures promised { Promised circuit.now (figures result) res.new }
    ensures committing { Committing circuit.now numbers.now scratch.old (length nodes.old) res.old }
{
    fold_wanted(circuit, Some(numbers), scratch, nodes, res)
}

// Commits to a plan: refuses what asking refuses, then any plan but the circuit's (14), and then does what folding does.
pub fn commit(
    circuit: &[u8],
    plan: Plan,
    scratch: &mut [u16],
    nodes: &mut [Node],
    res: &mut [u8],
) -> Verdict
    ensures verdict { figures result ≡ commit_checked circuit.now (plan_numbers plan) (length scratch.old) (length nodes.old) (length res.old) }
    ensures res { res.new ≡ commit_result circuit.now (plan_numbers plan) (length scratch.old) (length nodes.old) res.old }
    ensures scratch { scratch.new ≡ scratch_after circuit.now scratch.old }
    ensures nodes { nodes.new ≡ nodes_after circuit.now (length scratch.old) nodes.old }
    ensures promised { Promised circuit.now (figures result) res.new }
    ensures committing { Committing circuit.now (plan_numbers plan) scratch.old (length nodes.old) res.old }
{
    let numbers = plan.numbers();
    fold_wanted(circuit, Some(&numbers), scratch, nodes, res)
}
