// Asks for the plan of a circuit's table: its sizes, counts and bytes, before it is written.
#![tactic(auto)]

pub mod plan;

ghost use Rattle.std.specs.Prelude.{◌≡◌, length, Ok};
ghost use Rattle.circuit.specs.WellFormed.{Accepted};
ghost use Rattle.source.specs.Source.{sourced, SourceOf};
ghost use Rattle.folded.specs.Folded.{folded_bytes, scratch_after, nodes_after};
ghost use Rattle.folded.specs.Planned.{folded_plan, asked};
ghost use Rattle.folded.specs.Theorems.{Asking};
ghost use Rattle.ask.specs.declared.plan.Plan.{Plan};
ghost use Rattle.ask.specs.Plan.{Counted, plan_numbers, ask_numbers};

use lent::{clear_needed, judge_lent};
use nodes::Node;
use plan::{Asked, Plan};
use records::clear as empty;
use sizes::power;
use source::Source;
use survey::{Bounds, Counts, survey_circuit};
use table::head::head_length;

// How many bytes the table takes.
fn bytes_needed(circuit: &[u8], source: Source, counts: &[u16]) -> usize
    requires source_of { SourceOf circuit.now source }
    requires counted { Counted (sourced source circuit.now) counts.now }
    ensures { result ≡ length (folded_bytes (sourced source circuit.now)) }
{
    let frames = source.frames;
    let mut states = 0;
    for t in 0..frames {
        states += counts[t] as usize;
    }
    head_length(frames) + 4 * (states * power(source.inputs))
}

// The plan of an accepted circuit, or of a network by its source, whose states are counted.
pub fn plan_of(circuit: &[u8], counts: Counts, source: Source) -> Plan
    requires { SourceOf circuit.now source × Accepted (sourced source circuit.now) × Counted (sourced source circuit.now) counts }
    ensures { plan_numbers result ≡ folded_plan (sourced source circuit.now) }
{
    let bytes = bytes_needed(circuit, source, &counts);
    Plan {
        inputs: source.inputs,
        outputs: source.outputs,
        frames: source.frames,
        counts,
        bytes,
    }
}

// The plan of a circuit's table. What is needed of the scratch, and the whole list of records, end zero.
pub fn ask(circuit: &[u8], scratch: &mut [u16], nodes: &mut [Node]) -> Asked
    ensures answer { ask_numbers result ≡ asked circuit.now (length scratch.old) (length nodes.old) }
    ensures scratch { scratch.new ≡ scratch_after circuit.now scratch.old }
    ensures nodes { nodes.new ≡ nodes_after circuit.now (length scratch.old) nodes.old }
    ensures asking { (plan : Plan) → result ≡ Ok plan → Asking circuit.now (length scratch.old) (length nodes.old) (plan_numbers plan) }
{
    judge_lent(circuit, scratch)?;
    let source = Source::of(circuit);
    let mut work = [0; Bounds::WORK];
    let found = survey_circuit(circuit, scratch, nodes, &mut work, source);
    empty(nodes);
    clear_needed(scratch, source);
    Ok(plan_of(circuit, found?, source))
}
