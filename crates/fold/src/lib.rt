// Folds a circuit into its table of layered states: the fewest at every layer.
#![tactic(auto)]

ghost use Rattle.std.specs.Prelude.{◌≡◌, length};
ghost use Rattle.verdict.specs.Judgements.{figures};
ghost use Rattle.source.specs.Source.{sourced, SourceOf};
ghost use Rattle.folded.specs.Folded.{fold_checked, fold_result, scratch_after, nodes_after};
ghost use Rattle.fold.specs.Fold.{Findings, Ends, Clean, Finishes, Folds, Promised};

use admit::judge_counts;
use lent::{clear_needed, judge_lent};
use nodes::Node;
use records::clear as empty;
use source::Source;
use survey::{Bounds, Survey, survey_circuit};
use verdict::Verdict;
use write::write_table;

// Judges a circuit that was surveyed, and writes its table where it accepts.
fn write_found(
    circuit: &[u8],
    found: Survey,
    wanted: Option<&[u64]>,
    nodes: &[Node],
    scratch: &[u16],
    work: &mut [u32],
    res: &mut [u8],
    source: Source,
) -> Verdict
    requires { SourceOf circuit.now source × Findings (sourced source circuit.now) found nodes.now scratch.now work.old }
    ensures { Ends (sourced source circuit.now) wanted.entry (length nodes.now) res.old res.new result }
{
    let counts = found?;
    let bytes = judge_counts(circuit, counts, wanted, res.len(), source)?;
    write_table(circuit, counts, nodes, scratch, work, res, source);
    Ok(bytes)
}

// Surveys a circuit, or a network by its source, that is accepted, with the scratch that was cleared, and writes its table where 18, 14 and 7 are passed. The
// records, and what is needed of the scratch, end zero.
pub fn fold_judged(
    circuit: &[u8],
    wanted: Option<&[u64]>,
    scratch: &mut [u16],
    nodes: &mut [Node],
    res: &mut [u8],
    source: Source,
) -> Verdict
    requires { SourceOf circuit.now source × Clean (sourced source circuit.now) scratch.old }
    ensures { Finishes (sourced source circuit.now) wanted.entry scratch.old scratch.new nodes.old nodes.new res.old res.new result }
{
    let mut work = [0; Bounds::WORK];
    let found = survey_circuit(circuit, scratch, nodes, &mut work, source);
    let verdict = write_found(
        circuit, found, wanted, nodes, scratch, &mut work, res, source,
    );
    empty(nodes);
    clear_needed(scratch, source);
    verdict
}

// Folds a circuit, where its plan is the one that is wanted.
pub fn fold_wanted(
    circuit: &[u8],
    wanted: Option<&[u64]>,
    scratch: &mut [u16],
    nodes: &mut [Node],
    res: &mut [u8],
) -> Verdict
    ensures { Folds circuit.now wanted.entry scratch.old scratch.new nodes.old nodes.new res.old res.new result }
{
    judge_lent(circuit, scratch)?;
    let source = Source::of(circuit);
    fold_judged(circuit, wanted, scratch, nodes, res, source)
}

// Folds a circuit. The scratch and the records are lent: what is needed of the one, and all of the other, end zero once they are used.
pub fn fold(circuit: &[u8], scratch: &mut [u16], nodes: &mut [Node], res: &mut [u8]) -> Verdict
    ensures verdict { figures result ≡ fold_checked circuit.now (length scratch.old) (length nodes.old) (length res.old) }
    ensures res { res.new ≡ fold_result circuit.now (length scratch.old) (length nodes.old) res.old }
    ensures scratch { scratch.new ≡ scratch_after circuit.now scratch.old }
    ensures nodes { nodes.new ≡ nodes_after circuit.now (length scratch.old) nodes.old }
    ensures promised { Promised circuit.now (figures result) res.new }
{
    fold_wanted(circuit, None, scratch, nodes, res)
}
