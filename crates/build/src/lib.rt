// The diagrams of a circuit's signals: of its inputs, then of its gates, one after the other. The ids of the signals lie in `work`, signal by signal,
// with the cache of the AND behind them: nothing is allocated.
#![tactic(auto)]

ghost use Rattle.std.specs.Prelude.{◌≡◌, cond, ◌+◌, ◌-◌, ◌<◌, ◌≤◌, ltb, length, set};
ghost use Rattle.circuit.specs.Circuit.{gates, all_inputs};
ghost use Rattle.circuit.specs.Limits.{most_signals};
ghost use Rattle.source.specs.Source.{head_of, sourced, SourceOf};
ghost use Rattle.nodes.specs.Nodes.{id_of, Real};
ghost use Rattle.records.specs.Records.{nodes_in};
ghost use Rattle.build.specs.Build.{origin_of, Makeable, Makes, Buildable, Building};

use conjoin::{Shape, conjoin};
use nodes::{Node, Pair};
use records::join;
use source::{Source, gate_of};
use verdict::Refusal;

// What is to be made of a signal: the node of an input, at its level, or the AND of a pair.
#[derive(Clone, Copy)]
pub enum Origin {
    Input(u32),
    And(Pair),
}

// What is to be made of signal s + 1, given the ids of the signals before it.
fn origin_of(circuit: &[u8], source: Source, work: &[u32], s: usize) -> Origin
    requires source_of { SourceOf circuit.now source }
    requires s_bound { (s < all_inputs (sourced source circuit.now) + gates (sourced source circuit.now)) × (most_signals ≤ length work.now) }
    ensures { result ≡ origin_of (sourced source circuit.now) work.now s }
{
    let base = source.base;
    if s + 1 < base {
        return Origin::Input(s as u32 + 1);
    }
    let gate = gate_of(circuit, source, s + 1 - base);
    Origin::And(Pair {
        f: work[gate.left / 2],
        a: gate.left % 2 == 1,
        g: work[gate.right / 2],
        b: gate.right % 2 == 1,
    })
}

// Stores the id of signal s + 1.
fn set_id(work: &mut [u32], s: usize, id: u32)
    requires { (s + 1 < length work.old) × (s < 4294967296) }
    ensures { work.new ≡ set work.old (s + 1) id }
{
    work[s + 1] = id;
}

// The number of the gate that is signal s + 1, from 1, or 0 for an input.
fn gate_number(inputs: u32, s: usize) -> usize
    requires { s < 4294967296 }
    ensures { result ≡ cond (ltb s inputs) 0 (s - inputs + 1) }
{
    if s < inputs as usize {
        return 0;
    }
    s - inputs as usize + 1
}

// Makes the id of a signal: the node of an input, or the AND of a pair. None where the list has too few records.
fn make(nodes: &mut [Node], work: &mut [u32], shape: Shape, origin: Origin) -> Option<u32>
    requires { Makeable shape.inputs shape.room shape.cache nodes.old work.old origin }
    ensures is { Makes shape.inputs shape.room shape.cache origin (nodes_in nodes.old) (nodes_in nodes.new) work.old work.new (id_of result) }
    ensures real { Real result }
{
    match origin {
        Origin::Input(level) => join(nodes, shape.room, level, 0, 1),
        Origin::And(pair) => conjoin(nodes, work, shape, pair, shape.inputs),
    }
}

// The diagrams of a circuit's signals, in an empty list, and their ids in `work`, which is all zero. Number 18, with that of
// the first gate for whose nodes there is no room (0: for the inputs' alone).
pub fn build(
    circuit: &[u8],
    source: Source,
    nodes: &mut [Node],
    work: &mut [u32],
    shape: Shape,
) -> Result<(), Refusal>
    requires { SourceOf circuit.now source × Buildable (sourced source circuit.now) (head_of source) nodes.old work.old shape }
    ensures { Building (sourced source circuit.now) shape.room nodes.new work.new result }
{
    let count = source.base - 1 + source.gates;
    for s in 0..count {
        let origin = origin_of(circuit, source, work, s);
        let Some(id) = make(nodes, work, shape, origin) else {
            return Err(Refusal::Nodes(gate_number(shape.inputs, s)));
        };
        set_id(work, s, id);
    }
    Ok(())
}
